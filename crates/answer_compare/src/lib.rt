// Compare: is a value of a type of an entry equal to the one given?
#![tactic(auto)]

ghost use Rattle.std.specs.Prelude.{◌≡◌, List, map, ℕ, suc, ◌+◌, ◌≤◌, ◌<◌, ltb, get_or};
ghost use Rattle.rules.specs.Sheet.{Bytes};
ghost use Rattle.rules.specs.Name.{part, Name, equal};
ghost use Rattle.rules.specs.Directory.{Stored, blank, entry_of};
ghost use Rattle.rules.specs.Permission.{Compare};
ghost use Rattle.rules.specs.Decision.{Setting};
ghost use Rattle.rules.specs.FilterItem.{holds, some_value};
ghost use Rattle.rules.specs.Request.{Selection};
ghost use Rattle.rules.specs.Request as Request;
ghost use Rattle.rules.specs.Answer as Answer;
ghost use Rattle.tables.specs.Book.{type_count, entry_count, schema, first_at};
ghost use Rattle.tables.specs.Held.{rank_at, bytes_at, type_at};
ghost use Rattle.tables.specs.World.{World, Known};
ghost use Rattle.tables.specs.Plan.{aliases_of, planned};
ghost use Rattle.tables.specs.Sound.{Base, KnownBase, SoundPlan};
ghost use Rattle.answer_compare.specs.Compare.{counts, held_outcome, compare_plan};

use access_may::{may_type, may_value};
use answer_entry::{Sought, opening, withheld};
use name::equal_by;
use rules::{Outcome, operation};
use tables::book::{BOOK, FIRST, SCHEMA};
use tables::held::{HELD, bytes};
use tables::plan::{Plan, absent, is_result, refused};
use tables::sets::{COMPARE, DISCLOSE_ON_ERROR, READ, SETS};

// The type of the value in row `i`, of those of the entry of index `k`.
fn row_type(book: &[u64; BOOK], held: &[u64; HELD], k: usize, i: usize) -> u64
    requires { ((d p : Bytes) × (sets : List ℕ) × Known d p book.now held.now sets) × (k < entry_count book.now) × (first_at book.now k ≤ i) × (i < first_at book.now (suc k)) }
    ensures { result ≡ type_at (schema book.now) (rank_at held.now i) }
{
    book[SCHEMA + held[i] as usize] / 4
}

// The first row of the type `t` among the values of the entry of index `k`; the row after the last if it does not hold the type.
fn row_of(book: &[u64; BOOK], held: &[u64; HELD], k: usize, t: u64) -> usize
    requires { ((d p : Bytes) × (sets : List ℕ) × Known d p book.now held.now sets) × (k < entry_count book.now) }
    ensures { (first_at book.now k ≤ result) × (result < first_at book.now (suc k) → type_at (schema book.now) (rank_at held.now result) ≡ t) × ((σ : Setting) (es : List Stored) (d p : Bytes) (sets : List ℕ) → World σ es d p book.now held.now sets → holds (entry_of (get_or es k blank)) t ≡ ltb result (first_at book.now (suc k))) }
{
    let first = book[FIRST + k] as usize;
    let end = book[FIRST + 1 + k] as usize;
    (first..end)
        .find(|i| row_type(book, held, k, *i) == t)
        .unwrap_or(end)
}

// The outcome for an open entry, that of index `k`, which holds the type of this rank; Compare on the type is asked first.
fn outcome_of(book: &[u64; BOOK], sets: &[u64; SETS], k: usize, rank: usize, v: &[u8]) -> Outcome
    requires { ((d p : Bytes) × (held : List ℕ) × Known d p book.now held sets.now) × (k < entry_count book.now) × (rank < type_count book.now) }
    ensures { (σ : Setting) (es : List Stored) (d p : Bytes) (held : List ℕ) → World σ es d p book.now held sets.now → result ≡ held_outcome σ (type_at (schema book.now) rank) v.now (get_or es k blank).name }
{
    if may_type(sets, k + 1, rank, COMPARE) {
        if value_syntax::fits(book[SCHEMA + rank] % 4, v) {
            return Outcome::Result;
        }
        return Outcome::InvalidAttributeSyntax;
    }
    if may_type(sets, k + 1, rank, DISCLOSE_ON_ERROR) {
        return Outcome::InsufficientAccessRights;
    }
    Outcome::NoSuchAttributeOrValue
}

// Is the value in row `i` of the type of this rank, equal to `v`, with Compare granted?
fn equal_row(
    book: &[u64; BOOK],
    held: &[u64; HELD],
    sets: &[u64; SETS],
    d: &[u8],
    p: &[u8],
    k: usize,
    rank: usize,
    v: &[u8],
    i: usize,
) -> bool
    requires { Known d.now p.now book.now held.now sets.now × (k < entry_count book.now) × (rank < type_count book.now) × (first_at book.now k ≤ i) × (i < first_at book.now (suc k)) }
    ensures { (σ : Setting) (es : List Stored) → World σ es d.now p.now book.now held.now sets.now → result ≡ counts σ (get_or es k blank).name (type_at (schema book.now) rank) v.now (part (type_at (schema book.now) (rank_at held.now i)) (bytes_at d.now held.now i)) }
{
    if held[i] as usize != rank {
        return false;
    }
    let u = bytes(held, d, i);
    if equal_by(book[SCHEMA + rank] % 4, v, u) {
        return may_value(book, sets, p, k + 1, rank, u, COMPARE);
    }
    false
}

// Is a value of the type of this rank, with Compare granted, equal to `v`?
fn equal_any(
    book: &[u64; BOOK],
    held: &[u64; HELD],
    sets: &[u64; SETS],
    d: &[u8],
    p: &[u8],
    k: usize,
    rank: usize,
    v: &[u8],
) -> bool
    requires { Known d.now p.now book.now held.now sets.now × (k < entry_count book.now) × (rank < type_count book.now) }
    ensures { (σ : Setting) (es : List Stored) → World σ es d.now p.now book.now held.now sets.now → result ≡ some_value σ (entry_of (get_or es k blank)) (type_at (schema book.now) rank) Compare (equal σ.schema (type_at (schema book.now) rank) v.now) }
{
    let first = book[FIRST + k] as usize;
    let end = book[FIRST + 1 + k] as usize;
    (first..end).any(|i| equal_row(book, held, sets, d, p, k, rank, v, i))
}

// The plan of a comparison that was made.
fn compared(equal: bool) -> Plan
    ensures { result ≡ compare_plan equal }
{
    Plan {
        operation: operation::COMPARE,
        outcome: Outcome::Result,
        more: 0,
        name: 0,
        entry: 0,
        equal: u64::from(equal),
        shown: 0,
    }
}

// The plan for an open entry, that of index `k`. A type that is not held gives no such attribute or value whatever is
// permitted.
fn compare_open(
    book: &[u64; BOOK],
    held: &[u64; HELD],
    sets: &[u64; SETS],
    d: &[u8],
    p: &[u8],
    k: usize,
    t: u64,
    v: &[u8],
) -> Plan
    requires { Known d.now p.now book.now held.now sets.now × (k < entry_count book.now) }
    ensures { ((hits : List ℕ) → SoundPlan (entry_count book.now) result hits) × ((σ : Setting) (es : List Stored) (s : Selection) (hits : List ℕ) → World σ es d.now p.now book.now held.now sets.now → planned σ es s result hits ≡ Answer.compare_entry σ t v.now (entry_of (get_or es k blank))) }
{
    let i = row_of(book, held, k, t);
    if book[FIRST + 1 + k] as usize <= i {
        return refused(operation::COMPARE, Outcome::NoSuchAttributeOrValue);
    }
    let rank = held[i] as usize;
    let outcome = outcome_of(book, sets, k, rank, v);
    if !is_result(outcome) {
        return refused(operation::COMPARE, outcome);
    }
    compared(equal_any(book, held, sets, d, p, k, rank, v))
}

// The plan for entry number `b`; the root, 0, is no entry.
fn compare_entry(
    book: &[u64; BOOK],
    held: &[u64; HELD],
    sets: &[u64; SETS],
    d: &[u8],
    p: &[u8],
    t: u64,
    v: &[u8],
    b: usize,
    missing: usize,
) -> Plan
    requires { KnownBase d.now p.now book.now held.now sets.now (Some b) missing }
    ensures { ((hits : List ℕ) → SoundPlan (entry_count book.now) result hits) × ((σ : Setting) (es : List Stored) (n : Name) (s : Selection) (hits : List ℕ) → World σ es d.now p.now book.now held.now sets.now → Base σ es n (Some b) missing → planned σ es s result hits ≡ Answer.answer σ (map entry_of es) (aliases_of σ es) n (Request.compare t v.now)) }
{
    let opened = opening(sets, b, READ);
    if !is_result(opened) {
        return withheld(operation::COMPARE, opened, missing);
    }
    if b == 0 {
        return absent(operation::COMPARE, missing);
    }
    compare_open(book, held, sets, d, p, b - 1, t, v)
}

// The plan of a compare: the value `v` with those of the type `t` of the entry that is named.
pub fn compare(
    book: &[u64; BOOK],
    held: &[u64; HELD],
    sets: &[u64; SETS],
    d: &[u8],
    p: &[u8],
    t: u64,
    v: &[u8],
    sought: Sought,
) -> Plan
    requires { KnownBase d.now p.now book.now held.now sets.now sought.base sought.missing }
    ensures { ((hits : List ℕ) → SoundPlan (entry_count book.now) result hits) × ((σ : Setting) (es : List Stored) (n : Name) (s : Selection) (hits : List ℕ) → World σ es d.now p.now book.now held.now sets.now → Base σ es n sought.base sought.missing → planned σ es s result hits ≡ Answer.answer σ (map entry_of es) (aliases_of σ es) n (Request.compare t v.now)) }
{
    let base = sought.base;
    match base {
        Some(b) => compare_entry(book, held, sets, d, p, t, v, b, sought.missing),
        None => absent(operation::COMPARE, sought.missing),
    }
}
