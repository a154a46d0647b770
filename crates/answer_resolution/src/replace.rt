// A name whose beginning is an alias's, with the target in its place, as K 9 lines in a buffer.
ghost use Rattle.std.specs.Prelude.{◌≡◌, List, ◌++◌, ℕ, ◌+◌, ◌≤◌, length};
ghost use Rattle.rules.specs.Directory.{Stored};
ghost use Rattle.rules.specs.Decision.{Setting};
ghost use Rattle.rules.specs.Places.{lines_at, parts_of};
ghost use Rattle.rules.specs.Derived.{put_at};
ghost use Rattle.tables.specs.Book.{entry_count, width};
ghost use Rattle.tables.specs.World.{Entries, Listed};
ghost use Rattle.answer_resolution.specs.Resolution.{Full, part_bytes, target_of, HoldsName};

use sheet_kind::Kind;
use sheet_line::{Taken, bytes, take};
use sheet_write::put_line;
use tables::book::{BOOK, TARGET, WIDTH};

// The room for 15 K 9 lines, each of five columns of at most 18 bytes, 64 bytes and byte 10.
pub(crate) const NAME: usize = 2325;

// The `n` parts that stand as lines at position `i` of the sheet `s`, written from `at` on; the position after them is returned.
fn put_parts(name: &mut [u8; NAME], at: usize, w: usize, s: &[u8], i: usize, n: usize) -> usize
    requires { (1 ≤ w) × (w ≤ 18) × (at + length (part_bytes w s.now i n) ≤ length name.old) }
    ensures next { result ≡ at + length (part_bytes w s.now i n) }
    ensures written { name.new ≡ put_at name.old at (part_bytes w s.now i n) }
{
    let mut to = at;
    let mut j = i;
    for _ in 0..n {
        let Taken::Line(x) = take(s, j, w) else {
            return to;
        };
        to = put_line(name, to, w, Kind::NamePart, x.a, 0, 0, bytes(s, x));
        j = x.next;
    }
    to
}

// The target of entry number `e`, an alias, then the `left` parts at position `next` of the sheet `s`; how many parts there are.
pub(crate) fn replaced(
    book: &[u64; BOOK],
    d: &[u8],
    s: &[u8],
    e: usize,
    left: usize,
    next: usize,
    name: &mut [u8; NAME],
) -> usize
    requires { Listed d.now book.now × (1 ≤ e) × (e ≤ entry_count book.now) × (left ≤ 7) × Full (width book.now) s.now next left × (length name.old ≡ 2325) }
    ensures { (length name.new ≡ 2325) × ((σ : Setting) (es : List Stored) (held : List ℕ) → Entries σ es d.now book.now held → HoldsName (width book.now) name.new result (target_of es e ++ parts_of left (lines_at (width book.now) s.now next))) }
{
    let w = book[WIDTH] as usize;
    let target = book[TARGET + (e - 1)] as usize;
    let parts = target % 16;
    let at = put_parts(name, 0, w, d, target / 16, parts);
    put_parts(name, at, w, s, next, left);
    parts + left
}
