// An entry line, K 2: its place below its parent, and the ruling on its naming value.
#![tactic(auto)]

ghost use Rattle.std.specs.Prelude.{◌≡◌, ◌≤◌, length};
ghost use Rattle.rules.specs.Refusals.{refusal_in};
ghost use Rattle.directory_duplicates.specs.Rulings.{ValueSought, Decides, ruling_noted};
ghost use Rattle.directory_entry.specs.EntryLine.{depth_count, place_refusal, entry_ruling};

use directory_duplicates::{Claim, MARKS, Ruling, ruled};
use rules::refusals::Refusal;
use sheet_form::columns::directory_columns;
use sheet_kind::{Kind, is};
use sheet_line::Line;

// How many depths are kept: of the root, which is 0, and of 256 entries.
pub const DEPTHS: usize = 257;

// An entry line after `count` entries, refused or not whatever its value is. The entry before it lacks its naming value or not.
fn misplaced(depths: &[usize; DEPTHS], count: usize, lacks: bool, a: u64) -> Result<(), Refusal>
    requires { (count ≤ 256) × (length depths.now ≡ depth_count) }
    ensures { refusal_in result ≡ place_refusal depths.now count lacks a }
{
    if (count as u64) < a {
        return Err(Refusal::NotAllowed);
    }
    if lacks {
        return Err(Refusal::NamingValueNotHeld);
    }
    if 256 <= count {
        return Err(Refusal::OutOfOrder);
    }
    let parent = a as usize;
    if 8 <= depths[parent] {
        return Err(Refusal::OutOfOrder);
    }
    Ok(())
}

// A line that is no value line, after `count` entries: the only such line that may follow is an entry line. `top` is the highest type.
pub fn entry_line(
    s: &[u8],
    top: u64,
    schema: &[u64],
    depths: &[usize; DEPTHS],
    marks: &[usize; MARKS],
    count: usize,
    lacks: bool,
    line: Line,
) -> Result<Ruling, Refusal>
    requires { ValueSought s.now schema.now marks.now line × (count ≤ 256) × (length depths.now ≡ depth_count) }
    ensures { Decides s.now schema.now marks.now (entry_ruling top depths.now count lacks line) (ruling_noted result) }
{
    if !directory_columns(line, top) {
        return Err(Refusal::NotAllowed);
    }
    if !is(line.kind, Kind::Entry) {
        return Err(Refusal::OutOfOrder);
    }
    misplaced(depths, count, lacks, line.a)?;
    let rank = name::rank(schema, 0, line.b);
    let c = Claim {
        owner: line.a as usize,
        rank,
        place: line.place,
        length: line.length,
    };
    ruled(s, schema, marks, c)
}
