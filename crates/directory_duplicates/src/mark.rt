// A mark for each entry line and value line taken: it finds an equal value of the same owner and type without going through all
// of them. A mark is one number: label, place and length of its value, and the mark before it in its bucket (from 1; 0: none).
// The label is the key with a tag above it, 11 bits of the value's digest: bytes are compared only where both agree. Of the
// 65,536 slots, by the digest's 16 high bits, each mark's is set: a bucket is gone through only where the value's slot is.
// The table of the marks holds 2,115 marks, then the newest mark of each of 2,048 buckets, then the slots as bits of 1,024 words.
ghost use Rattle.std.specs.Prelude.{◌≡◌, ◌+◌, ◌≤◌, ◌<◌, length};
ghost use Rattle.directory_duplicates.specs.Mark as Mark;

use crate::MARKS;

// Where the buckets begin, and where the slots do.
pub(crate) const HEADS: usize = 2115;

pub(crate) const SLOTS: usize = 4163;

// Where the parts of a mark's number begin: its length above 14 bits, its place above 21, its label above 37.
const SIZE: usize = 16384;

const PLACE: usize = 2097152;

const LABEL: usize = 137438953472;

// Whether the mark `m` has this label and an equal value.
fn bears(s: &[u8], m: usize, label: usize, syntax: u64, v: &[u8]) -> bool
    requires { Mark.place_in m + Mark.size_in m ≤ length s.now }
    ensures { result ≡ Mark.bears s.now syntax label v.now m }
{
    if m / LABEL != label {
        return false;
    }
    value_syntax::same(
        syntax,
        sheet_line::part(s, m / PLACE % 65536, m / SIZE % 128),
        v,
    )
}

// Whether a mark has this slot.
pub(crate) fn slotted(marks: &[usize; MARKS], slot: usize) -> bool
    requires { (slot < 65536) × (length marks.now ≡ Mark.table_length) }
    ensures { result ≡ Mark.slot_in marks.now slot }
{
    let j = slot % 64;
    (marks[SLOTS + slot / 64] >> j) % 2 == 1
}

// Whether a mark with this label, from `head` on in its bucket, has an equal value: none where no mark may.
pub(crate) fn twin(
    s: &[u8],
    marks: &[usize; MARKS],
    may: bool,
    head: usize,
    label: usize,
    syntax: u64,
    v: &[u8],
) -> bool
    requires { Mark.Walkable s.now marks.now may head label v.now }
    ensures { Mark.Answers s.now marks.now may head label syntax v.now result }
{
    if !may {
        return false;
    }
    let mut k = head;
    while k != 0 {
        let m = marks[k - 1];
        if bears(s, m, label, syntax, v) {
            return true;
        }
        k = m % SIZE;
    }
    false
}
