// The way down a name, part by part from the root, by the numbers of the book.
ghost use Rattle.std.specs.Prelude.{◌≡◌, List, ℕ, ◌≤◌, length};
ghost use Rattle.rules.specs.Sheet.{Bytes};
ghost use Rattle.rules.specs.Directory.{Stored};
ghost use Rattle.rules.specs.Decision.{Setting};
ghost use Rattle.rules.specs.Places.{lines_at, parts_of};
ghost use Rattle.tables.specs.Book.{entry_count, width};
ghost use Rattle.tables.specs.World.{World, Known, KnownEntry};
ghost use Rattle.answer_resolution.specs.Resolution.{last_of, way_down, ending_of, Full, EndsWithin};

use access_may::may_entry;
use answer_entry::Sought;
use directory_lookup::find::{Descent, down};
use tables::book::{BOOK, TARGET};
use tables::sets::{DISCLOSE_ON_ERROR, SETS};

// Where the way ends: at an alias, with `left` parts behind it, from position `next` on; or with the name.
// Not a Result: neither end is an error, and both carry what comes next.
#[derive(Drop)]
pub(crate) enum Way {
    Alias {
        number: usize,
        left: usize,
        next: usize,
    },
    End(Sought),
}

// The entry number `e` if DiscloseOnError is granted on it, else `last`.
fn disclosed(sets: &[u64; SETS], e: usize, last: usize) -> usize
    requires { KnownEntry sets.now e }
    ensures { ((n : ℕ) → e ≤ n → last ≤ n → result ≤ n) × ((σ : Setting) (es : List Stored) (d p : Bytes) (book held : List ℕ) → World σ es d p book held sets.now → e ≤ length es → result ≡ last_of σ es e last) }
{
    if may_entry(sets, e, DISCLOSE_ON_ERROR) {
        return e;
    }
    last
}

// The way down the name of the `parts` K 9 lines at position `place` of the sheet `s`, up to the first alias if `stop`.
pub(crate) fn way_down(
    book: &[u64; BOOK],
    sets: &[u64; SETS],
    d: &[u8],
    s: &[u8],
    place: usize,
    parts: usize,
    stop: bool,
) -> Way
    requires { ((p : Bytes) × (held : List ℕ) × Known d.now p book.now held sets.now) × Full (width book.now) s.now place parts }
    ensures { EndsWithin (entry_count book.now) (width book.now) s.now parts result × ((σ : Setting) (es : List Stored) (p : Bytes) (held : List ℕ) → World σ es d.now p book.now held sets.now → ending_of (width book.now) s.now result ≡ way_down σ es stop 0 0 (parts_of parts (lines_at (width book.now) s.now place))) }
{
    let mut from: usize = 0;
    let mut last: usize = 0;
    let mut j = place;
    for left in (0..parts).rev() {
        match down(book, d, from, s, j) {
            Descent::To { number, next } => {
                last = disclosed(sets, from, last);
                if stop {
                    if book[TARGET + (number - 1)] != 0 {
                        return Way::Alias { number, left, next };
                    }
                }
                from = number;
                j = next;
            }
            Descent::Lost => {
                return Way::End(Sought {
                    base: None,
                    missing: disclosed(sets, from, last),
                });
            }
            Descent::Ended => {
                return Way::End(Sought {
                    base: Some(from),
                    missing: last,
                });
            }
        }
    }
    Way::End(Sought {
        base: Some(from),
        missing: last,
    })
}
