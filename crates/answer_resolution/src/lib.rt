// The entry that a request names, and the entry with the matched name. While an alias stands at the beginning of the name, that beginning is replaced by the
// alias's target (#105).
#![tactic(auto)]

mod replace;
mod way;

ghost use Rattle.std.specs.Prelude.{List, ◌++◌, ℕ, ◌≤◌};
ghost use Rattle.rules.specs.Sheet.{Bytes};
ghost use Rattle.rules.specs.Directory.{Stored};
ghost use Rattle.rules.specs.Decision.{Setting};
ghost use Rattle.rules.specs.Aliases.{followed, resolved};
ghost use Rattle.rules.specs.Places.{lines_at, parts_of};
ghost use Rattle.tables.specs.Book.{entry_count, width};
ghost use Rattle.tables.specs.World.{World, Known};
ghost use Rattle.tables.specs.Plan.{aliases_of};
ghost use Rattle.answer_resolution.specs.Resolution.{Full, target_of, Resolves};

use answer_entry::Sought;
use replace::{NAME, replaced};
use tables::book::BOOK;
use tables::sets::SETS;
use way::{Way, way_down};

// How often a name is replaced at most.
const MOST: usize = 8;

// The entry that a name names which begins with the alias of this number, `left` parts being behind it, from position `next` of the sheet `s` on; none where a ninth replacement is due.
fn follow(
    book: &[u64; BOOK],
    sets: &[u64; SETS],
    d: &[u8],
    s: &[u8],
    number: usize,
    left: usize,
    next: usize,
) -> Option<Sought>
    requires { ((p : Bytes) × (held : List ℕ) × Known d.now p book.now held sets.now) × (1 ≤ number) × (number ≤ entry_count book.now) × (left ≤ 7) × Full (width book.now) s.now next left }
    ensures { (σ : Setting) (es : List Stored) (p : Bytes) (held : List ℕ) → World σ es d.now p book.now held sets.now → Resolves σ es (followed σ.schema (aliases_of σ es) 8 (target_of es number ++ parts_of left (lines_at (width book.now) s.now next))) result }
{
    let mut name: [u8; NAME] = [0; NAME];
    let mut parts = replaced(book, d, s, number, left, next, &mut name);
    for more in (0..MOST).rev() {
        match way_down(book, sets, d, &name, 0, parts, parts < 9) {
            Way::End(sought) => return Some(sought),
            Way::Alias { number, left, next } => {
                if more == 0 {
                    break;
                }
                let mut again: [u8; NAME] = [0; NAME];
                parts = replaced(book, d, &name, number, left, next, &mut again);
                name = again;
            }
        }
    }
    None
}

// The entry that the `parts` K 9 lines at position `place` of the sheet `q` name; none where a ninth replacement is due.
pub fn resolve_name(
    book: &[u64; BOOK],
    sets: &[u64; SETS],
    d: &[u8],
    q: &[u8],
    place: usize,
    parts: usize,
) -> Option<Sought>
    requires { ((p : Bytes) × (held : List ℕ) × Known d.now p book.now held sets.now) × Full (width book.now) q.now place parts }
    ensures { (σ : Setting) (es : List Stored) (p : Bytes) (held : List ℕ) → World σ es d.now p book.now held sets.now → Resolves σ es (resolved σ.schema (aliases_of σ es) (parts_of parts (lines_at (width book.now) q.now place))) result }
{
    match way_down(book, sets, d, q, place, parts, parts < 9) {
        Way::End(sought) => Some(sought),
        Way::Alias { number, left, next } => follow(book, sets, d, q, number, left, next),
    }
}
