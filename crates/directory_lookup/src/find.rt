// Entries by their numbers, from 1; 0 is the root. A child is looked up by its parent's number, its naming type and the bytes of its naming value,
// a name part by part from the root down.
ghost use Rattle.std.specs.Prelude.{◌≡◌, ℕ, ◌<◌, List};
ghost use Rattle.rules.specs.Name.{part};
ghost use Rattle.rules.specs.Directory.{Stored};
ghost use Rattle.rules.specs.Decision.{Setting};
ghost use Rattle.rules.specs.Places.{lines_at, parts_of};
ghost use Rattle.tables.specs.Numbers.{child_from, walk};
ghost use Rattle.sheet_line.specs.Line.{taken_at};
ghost use Rattle.name.specs.Schema.{syntax_in};
ghost use Rattle.tables.specs.Book as Book;
ghost use Rattle.tables.specs.Book.{entry_count, width};
ghost use Rattle.tables.specs.World.{Entries, Listed};
ghost use Rattle.directory_lookup.specs.Find.{UpTo, LeadsWithin, is_child, step_of};

use name::{equal_by, syntax_of};
use sheet_line::Taken;
use tables::book::{BOOK, ENTRIES, NAMING, PARENT, WIDTH, naming_value, schema};

// One part of a name down from an entry: the child's number and the position of the next part; no such child; or no part.
// Not an Option in an Option: a child that is not there and a name that has ended are answered differently.
#[derive(Drop)]
pub enum Descent {
    To { number: usize, next: usize },
    Lost,
    Ended,
}

// Is the entry of index `k` the child of `parent` with the naming part `t`, `v`? The type's syntax is `s`. Numbers are compared before bytes.
fn is_child(book: &[u64; BOOK], d: &[u8], k: usize, parent: usize, t: u64, s: u64, v: &[u8]) -> bool
    requires { Listed d.now book.now × (k < entry_count book.now) }
    ensures { result ≡ is_child book.now d.now k parent t s v.now }
{
    if book[PARENT + k] as usize != parent {
        return false;
    }
    if t != book[NAMING + k] {
        return false;
    }
    let u = naming_value(book, d, k);
    if !value_syntax::same(s, v, u) {
        return false;
    }
    equal_by(s, v, u)
}

// The number of the child of entry `parent` with the naming part `t`, `v`. The type's syntax is `s`. A child stands after its parent.
fn child_by(book: &[u64; BOOK], d: &[u8], parent: usize, t: u64, s: u64, v: &[u8]) -> Option<usize>
    requires { Listed d.now book.now × (syntax_in (Book.schema book.now) t ≡ Some s) }
    ensures { UpTo (entry_count book.now) result × ((σ : Setting) (es : List Stored) (held : List ℕ) → Entries σ es d.now book.now held → result ≡ child_from σ.schema parent (part t v.now) es 0) }
{
    for i in parent..book[ENTRIES] as usize {
        if is_child(book, d, i, parent, t, s, v) {
            return Some(i + 1);
        }
    }
    None
}

// The number of the child of entry `parent` with the naming part `t`, `v`.
pub fn child(book: &[u64; BOOK], d: &[u8], parent: usize, t: u64, v: &[u8]) -> Option<usize>
    requires { Listed d.now book.now }
    ensures { UpTo (entry_count book.now) result × ((σ : Setting) (es : List Stored) (held : List ℕ) → Entries σ es d.now book.now held → result ≡ child_from σ.schema parent (part t v.now) es 0) }
{
    match syntax_of(schema(book), t) {
        Some(s) => child_by(book, d, parent, t, s as u64, v),
        None => None,
    }
}

// One part down from entry `from`, by the K 9 line at position `j` of the sheet `s`.
pub fn down(book: &[u64; BOOK], d: &[u8], from: usize, s: &[u8], j: usize) -> Descent
    requires { Listed d.now book.now }
    ensures { LeadsWithin (entry_count book.now) result × ((σ : Setting) (es : List Stored) (held : List ℕ) → Entries σ es d.now book.now held → result ≡ step_of σ.schema es from s.now (taken_at (width book.now) s.now j)) }
{
    match sheet_line::take(s, j, book[WIDTH] as usize) {
        Taken::Line(x) => match child(book, d, from, x.a, sheet_line::bytes(s, x)) {
            Some(number) => Descent::To {
                number: number,
                next: x.next,
            },
            None => Descent::Lost,
        },
        Taken::NotInForm => Descent::Ended,
        Taken::End => Descent::Ended,
    }
}

// The number of the entry named by the `n` K 9 lines at position `i` of the sheet `s`.
pub fn resolve(book: &[u64; BOOK], d: &[u8], s: &[u8], i: usize, n: usize) -> Option<usize>
    requires { Listed d.now book.now }
    ensures { UpTo (entry_count book.now) result × ((σ : Setting) (es : List Stored) (held : List ℕ) → Entries σ es d.now book.now held → result ≡ walk σ.schema es 0 (parts_of n (lines_at (width book.now) s.now i))) }
{
    let mut from: usize = 0;
    let mut j = i;
    for _k in 0..n {
        match down(book, d, from, s, j) {
            Descent::To { number, next } => {
                from = number;
                j = next;
            }
            Descent::Lost => {
                return None;
            }
            Descent::Ended => {
                return Some(from);
            }
        }
    }
    Some(from)
}
