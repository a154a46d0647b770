// The ruling on a value that a line brings, of an entry line or a value line: whether the schema allows it, and whether its owner
// has an equal one already.
#![tactic(auto)]

mod mark;

ghost use Rattle.std.specs.Prelude.{◌≡◌};
ghost use Rattle.directory_duplicates.specs.Noted.{unrefused};
ghost use Rattle.directory_duplicates.specs.Mark.{Room, with_mark};
ghost use Rattle.directory_duplicates.specs.Rulings.{ruling_noted, Claimed, Decides, ruled_of};

use mark::{HEADS, SLOTS};
use rules::refusals::Refusal;

// How many numbers the table of the marks has.
pub const MARKS: usize = 5187;

// A line that is not refused: its type's rank, and the bucket, slot and mark of its value.
#[derive(Clone, Copy)]
pub struct Ruling {
    pub rank: usize,
    pub bucket: usize,
    pub slot: usize,
    pub mark: usize,
}

// A value that a line brings its owner: the rank of its type, where its bytes begin, and how many they are.
#[derive(Drop)]
pub struct Claim {
    pub owner: usize,
    pub rank: usize,
    pub place: usize,
    pub length: usize,
}

// The ruling on a value: 4, or 5 where its owner has one equal to it.
pub fn ruled(s: &[u8], schema: &[u64], marks: &[usize; MARKS], c: Claim) -> Result<Ruling, Refusal>
    requires { Claimed s.now schema.now marks.now c }
    ensures { Decides s.now schema.now marks.now (ruled_of c.owner c.rank c.place c.length) (ruling_noted result) }
{
    let rank = c.rank;
    let v = sheet_line::part(s, c.place, c.length);
    if !name::allowed_at(schema, rank, v) {
        return Err(Refusal::OutsideSchema);
    }
    let key = c.owner * 64 + rank;
    let digest = value_syntax::digest::digest(key as u64, v);
    let bucket = (digest % 2048) as usize;
    let label = (digest / 2048 % 2048) as usize * 65536 + key;
    let head = marks[HEADS + bucket];
    let slot = (digest / 65536 % 65536) as usize;
    let may = mark::slotted(marks, slot);
    if mark::twin(s, marks, may, head, label, schema[rank] % 4, v) {
        return Err(Refusal::Twice);
    }
    Ok(Ruling {
        rank,
        bucket,
        slot,
        mark: ((label * 65536 + c.place) * 128 + c.length) * 16384 + head,
    })
}

// The mark that was ruled on, as the next after `n` marks.
pub fn note(marks: &mut [usize; MARKS], n: usize, r: Ruling)
    requires { Room marks.old n (unrefused r) }
    ensures { marks.new ≡ with_mark marks.old n (unrefused r) }
{
    marks[n] = r.mark;
    marks[HEADS + r.bucket] = n + 1;
    let k = SLOTS + r.slot / 64;
    let j = r.slot % 64;
    marks[k] = marks[k] | (1usize << j);
}
