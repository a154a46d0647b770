// May this requester? The three questions about a permission: of an entry, of a type of it, of a value of it. Each is an AND of sets of items, whose
// first member decides.
#![tactic(auto)]

mod single;

ghost use Rattle.std.specs.Prelude.{◌≡◌, ◌&&◌, ◌||◌, List, ℕ, suc, ◌+◌, ◌^◌, ◌≤◌, ◌<◌, length};
ghost use Rattle.rules.specs.Sheet.{Bytes};
ghost use Rattle.rules.specs.Directory.{Stored};
ghost use Rattle.rules.specs.Decision.{Setting, entry, of_type, of_value};
ghost use Rattle.access_set.specs.Member.{member};
ghost use Rattle.tables.specs.Book.{type_count, entry_count, schema};
ghost use Rattle.tables.specs.Held.{type_at};
ghost use Rattle.tables.specs.Sets.{permission_row, what_row, type_row, in_row, granted_at};
ghost use Rattle.tables.specs.World.{World, Known, KnownEntry, KnownTypes};
ghost use Rattle.access_may.specs.Decided.{Decided};

use access_set::Bits;
use rules::what;
use single::decided_value;
use tables::book::{BOOK, SCHEMA};
use tables::sets::{GRANTS, PERMISSION, SETS, TYPE, WHAT, row};

// Rows by what an item is about.
const ENTRY: usize = WHAT + what::ENTRY as usize;

const ALL_TYPES: usize = WHAT + what::ALL_TYPES as usize;

const ALL_TYPES_AND_VALUES: usize = WHAT + what::ALL_TYPES_AND_VALUES as usize;

const ONE_TYPE: usize = WHAT + what::ONE_TYPE as usize;

const VALUES_OF_TYPE: usize = WHAT + what::VALUES_OF_TYPE as usize;

const ONE_VALUE: usize = WHAT + what::ONE_VALUE as usize;

// The items that cover entry `e`, fit the requester and name the permission.
fn naming(sets: &[u64; SETS], e: usize, q: usize) -> Bits
    requires { (e ≤ 256) × (q < 6) }
    ensures { (j : ℕ) → member result j ≡ (in_row sets.now e j && in_row sets.now (permission_row + q) j) }
{
    row(sets, e).and(row(sets, PERMISSION + q))
}

// Does the first of the items asked grant? Refused where there is none.
fn decided(sets: &[u64; SETS], asked: Bits) -> bool
    ensures { Decided sets.now (member asked) result }
{
    let Some(i) = asked.first() else {
        return false;
    };
    row(sets, GRANTS).has(i)
}

// Is the permission granted on entry number `e`?
pub fn may_entry(sets: &[u64; SETS], e: usize, q: usize) -> bool
    requires { (q < 6) × KnownEntry sets.now e }
    ensures { (σ : Setting) (es : List Stored) (d p : Bytes) (book held : List ℕ) → World σ es d p book held sets.now → e ≤ length es → result ≡ granted_at σ es e entry (2 ^ q) }
{
    decided(sets, naming(sets, e, q).and(row(sets, ENTRY)))
}

// The items about types that are about the type of this rank.
fn about_type(sets: &[u64; SETS], rank: usize) -> Bits
    requires { rank < 64 }
    ensures { (j : ℕ) → member result j ≡ (in_row sets.now (what_row + 1) j || (in_row sets.now (what_row + 2) j || in_row sets.now (what_row + 3) j && in_row sets.now (type_row + rank) j)) }
{
    let one = row(sets, ONE_TYPE).and(row(sets, TYPE + rank));
    row(sets, ALL_TYPES).or(row(sets, ALL_TYPES_AND_VALUES).or(one))
}

// Is the permission granted on the type of this rank in entry number `e`, held or not?
pub fn may_type(sets: &[u64; SETS], e: usize, rank: usize, q: usize) -> bool
    requires { (q < 6) × KnownTypes sets.now e (suc rank) }
    ensures { (σ : Setting) (es : List Stored) (d p : Bytes) (book held : List ℕ) → World σ es d p book held sets.now → e ≤ length es → rank < length (schema book) → result ≡ granted_at σ es e (of_type (type_at (schema book) rank)) (2 ^ q) }
{
    decided(sets, naming(sets, e, q).and(about_type(sets, rank)))
}

// Of the items asked, those about all values, or all values of the type of this rank.
fn about_all(sets: &[u64; SETS], asked: Bits, rank: usize) -> Bits
    requires { rank < 64 }
    ensures { (j : ℕ) → member result j ≡ (member asked j && (in_row sets.now (what_row + 2) j || in_row sets.now (type_row + rank) j && in_row sets.now (what_row + 4) j)) }
{
    let typed = row(sets, TYPE + rank).and(row(sets, VALUES_OF_TYPE));
    asked.and(row(sets, ALL_TYPES_AND_VALUES).or(typed))
}

// Of the items asked, those about one value of the type of this rank.
fn about_one(sets: &[u64; SETS], asked: Bits, rank: usize) -> Bits
    requires { rank < 64 }
    ensures { (j : ℕ) → member result j ≡ (member asked j && (in_row sets.now (type_row + rank) j && in_row sets.now (what_row + 5) j)) }
{
    asked.and(row(sets, TYPE + rank).and(row(sets, ONE_VALUE)))
}

// Is the permission granted on the value `v` of the type of this rank in entry number `e`?
pub fn may_value(
    book: &[u64; BOOK],
    sets: &[u64; SETS],
    p: &[u8],
    e: usize,
    rank: usize,
    v: &[u8],
    q: usize,
) -> bool
    requires { (e ≤ entry_count book.now) × (rank < type_count book.now) × (q < 6) × ((d : Bytes) × (held : List ℕ) × Known d p.now book.now held sets.now) }
    ensures { (σ : Setting) (es : List Stored) (d : Bytes) (held : List ℕ) → World σ es d p.now book.now held sets.now → result ≡ granted_at σ es e (of_value (type_at (schema book.now) rank) v.now) (2 ^ q) }
{
    let asked = naming(sets, e, q);
    let all = about_all(sets, asked, rank);
    let single = about_one(sets, asked, rank);
    decided_value(sets, p, all, single, book[SCHEMA + rank] % 4, v)
}
