// List: the children of the base, by number. The parent's number is compared before any permission is asked for.
#![tactic(auto)]

ghost use Rattle.std.specs.Prelude.{◌≡◌, List, map, ℕ, ◌≤◌, ◌<◌, length, take};
ghost use Rattle.rules.specs.Sheet.{Bytes};
ghost use Rattle.rules.specs.Name.{Name};
ghost use Rattle.rules.specs.Directory.{Stored, entry_of};
ghost use Rattle.rules.specs.Decision.{Setting};
ghost use Rattle.rules.specs.Request as Request;
ghost use Rattle.rules.specs.Request.{Selection};
ghost use Rattle.rules.specs.Answer.{answer};
ghost use Rattle.tables.specs.Book.{entry_count};
ghost use Rattle.tables.specs.World.{World, Known};
ghost use Rattle.tables.specs.Plan.{aliases_of, planned};
ghost use Rattle.tables.specs.Sound.{Base, KnownBase, SoundPlan};
ghost use Rattle.answer_entry.specs.Passing.{Indices, passing, over};
ghost use Rattle.answer_list.specs.Hits.{listed_at, list_found};

use access_may::may_entry;
use answer_entry::{Sought, note_passing, returnable, returned};
use rules::operation;
use tables::book::{BOOK, ENTRIES, PARENT};
use tables::plan::{Plan, absent};
use tables::sets::{DISCLOSE_ON_ERROR, SETS};

// Is the entry of index `k` a child of number `b` that may be returned?
fn child(book: &[u64; BOOK], sets: &[u64; SETS], b: usize, k: usize) -> bool
    requires { (k < entry_count book.now) × (entry_count book.now ≤ 256) × ((d p : Bytes) × (held : List ℕ) × Known d p book.now held sets.now) }
    ensures { (σ : Setting) (es : List Stored) (d p : Bytes) (held : List ℕ) → World σ es d p book.now held sets.now → result ≡ listed_at σ es b k }
{
    if book[PARENT + k] as usize != b {
        return false;
    }
    returnable(sets, k + 1, false)
}

// Notes the indices of the children of number `b` that may be returned, in order; how many they are.
fn children(book: &[u64; BOOK], sets: &[u64; SETS], b: usize, hits: &mut [usize; 256]) -> usize
    requires { (entry_count book.now ≤ 256) × (length hits.old ≡ 256) × ((d p : Bytes) × (held : List ℕ) × Known d p book.now held sets.now) }
    ensures { Indices (entry_count book.now) result hits.old hits.new × ((σ : Setting) (es : List Stored) (d p : Bytes) (held : List ℕ) → World σ es d p book.now held sets.now → take result hits.new ≡ passing (listed_at σ es b) (length es)) }
{
    note_passing(book[ENTRIES] as usize, hits, |k| child(book, sets, b, k))
}

// The plan of a list: the children of the base that may be returned, within the size limit.
pub fn list(
    book: &[u64; BOOK],
    sets: &[u64; SETS],
    sought: Sought,
    limit: u64,
    hits: &mut [usize; 256],
) -> Plan
    requires { (length hits.old ≡ 256) × ((d p : Bytes) × (held : List ℕ) × KnownBase d p book.now held sets.now sought.base sought.missing) }
    ensures { SoundPlan (entry_count book.now) result hits.new × ((σ : Setting) (es : List Stored) (d p : Bytes) (held : List ℕ) (n : Name) (s : Selection) → World σ es d p book.now held sets.now → Base σ es n sought.base sought.missing → planned σ es s result hits.new ≡ answer σ (map entry_of es) (aliases_of σ es) n (Request.list limit)) × ((σ : Setting) (es : List Stored) (d p : Bytes) (held : List ℕ) → World σ es d p book.now held sets.now → hits.new ≡ over (list_found σ es sought.base) hits.old) }
{
    let base = sought.base;
    let Some(b) = base else {
        return absent(operation::LIST, sought.missing);
    };
    let count = children(book, sets, b, hits);
    let open = may_entry(sets, b, DISCLOSE_ON_ERROR);
    returned(operation::LIST, sought.missing, open, limit, count)
}
