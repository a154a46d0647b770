// Names that stand as K 9 lines on two sheets, compared part by part where they stand.
ghost use Rattle.std.specs.Prelude.{◌≡◌};
ghost use Rattle.rules.specs.Name.{part, same_part};
ghost use Rattle.rules.specs.Name as Name;
ghost use Rattle.rules.specs.Places.{schema_of, lines_at, parts_of};
ghost use Rattle.tables.specs.Book as Book;
ghost use Rattle.tables.specs.Book.{BookFits, width};

use sheet_line::Taken;
use tables::book::{BOOK, WIDTH, schema};

// Are the part `a`, `v` and the part `b`, `u` the same?
fn same_part(types: &[u64], a: u64, v: &[u8], b: u64, u: &[u8]) -> bool
    ensures { result ≡ same_part (schema_of types.now) (part a v.now) (part b u.now) }
{
    if a != b {
        return false;
    }
    name::equal(types, a, v, u)
}

// Is the name of the `m` parts at position `j` of `t` at or below the name of the `n` parts at position `i` of `s`?
pub fn covers(
    book: &[u64; BOOK],
    s: &[u8],
    i: usize,
    n: usize,
    t: &[u8],
    j: usize,
    m: usize,
) -> bool
    requires { BookFits book.now }
    ensures { result ≡ Name.covers (schema_of (Book.schema book.now)) (parts_of n (lines_at (width book.now) s.now i)) (parts_of m (lines_at (width book.now) t.now j)) }
{
    let types = schema(book);
    let w = book[WIDTH] as usize;
    let mut k = i;
    let mut l = j;
    for a in 0..n {
        let Taken::Line(x) = sheet_line::take(s, k, w) else {
            return true;
        };
        if m <= a {
            return false;
        }
        let Taken::Line(y) = sheet_line::take(t, l, w) else {
            return false;
        };
        if !same_part(
            types,
            x.a,
            sheet_line::bytes(s, x),
            y.a,
            sheet_line::bytes(t, y),
        ) {
            return false;
        }
        k = x.next;
        l = y.next;
    }
    true
}
