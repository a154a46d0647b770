// Read: what is returned of one entry, all its types or those chosen.
#![tactic(auto)]

ghost use Rattle.std.specs.Prelude.{◌≡◌, cond, List, map, ℕ, suc, ◌+◌, ◌≤◌, ◌<◌, length, get_or};
ghost use Rattle.rules.specs.Lists.{any};
ghost use Rattle.rules.specs.Sheet.{Bytes};
ghost use Rattle.rules.specs.Name.{part, Name};
ghost use Rattle.rules.specs.Directory.{Stored, blank, entry_of};
ghost use Rattle.rules.specs.Decision.{Setting};
ghost use Rattle.rules.specs.Request.{Selection};
ghost use Rattle.rules.specs.Request as Request;
ghost use Rattle.rules.specs.Answer as Answer;
ghost use Rattle.tables.specs.Book.{entry_count, schema, first_at};
ghost use Rattle.tables.specs.Held.{rank_at, bytes_at, type_at};
ghost use Rattle.tables.specs.World.{World, Known};
ghost use Rattle.tables.specs.Choice.{Chooses, KnownChoice, KnownChoiceAt};
ghost use Rattle.tables.specs.Plan.{aliases_of, planned};
ghost use Rattle.tables.specs.Sound.{Base, KnownBase, SoundPlan};
ghost use Rattle.answer_read.specs.Read.{readable, disclosing, read_outcome, read_plan};

use access_may::{may_entry, may_type, may_value};
use answer_entry::{Sought, opening, withheld};
use rules::{Outcome, operation};
use tables::book::{BOOK, FIRST};
use tables::held::{HELD, bytes};
use tables::plan::{Choice, Plan, absent, chosen, is_result, refused};
use tables::sets::{DISCLOSE_ON_ERROR, READ, RETURN_DN, SETS};

// Is something returned for the value in row `i`, held by the entry of index `k`: is its type chosen, with Read, and, if values are wanted, has it Read itself?
fn readable_row(
    book: &[u64; BOOK],
    held: &[u64; HELD],
    sets: &[u64; SETS],
    d: &[u8],
    p: &[u8],
    choice: Choice,
    k: usize,
    i: usize,
) -> bool
    requires { Known d.now p.now book.now held.now sets.now × (k < entry_count book.now) × (first_at book.now k ≤ i) × (i < first_at book.now (suc k)) × KnownChoice (schema book.now) choice }
    ensures { (σ : Setting) (es : List Stored) (s : Selection) → World σ es d.now p.now book.now held.now sets.now → Chooses (schema book.now) s choice → result ≡ readable σ s (get_or es k blank).name (part (type_at (schema book.now) (rank_at held.now i)) (bytes_at d.now held.now i)) }
{
    let rank = held[i] as usize;
    if chosen(choice, rank) {
        if may_type(sets, k + 1, rank, READ) {
            if choice.values {
                return may_value(book, sets, p, k + 1, rank, bytes(held, d, i), READ);
            }
            return true;
        }
        return false;
    }
    false
}

// Is anything returned of the entry of index `k`?
fn readable_any(
    book: &[u64; BOOK],
    held: &[u64; HELD],
    sets: &[u64; SETS],
    d: &[u8],
    p: &[u8],
    choice: Choice,
    k: usize,
) -> bool
    requires { Known d.now p.now book.now held.now sets.now × (k < entry_count book.now) × KnownChoice (schema book.now) choice }
    ensures { (σ : Setting) (es : List Stored) (s : Selection) → World σ es d.now p.now book.now held.now sets.now → Chooses (schema book.now) s choice → result ≡ any (readable σ s (get_or es k blank).name) (get_or es k blank).values }
{
    let first = book[FIRST + k] as usize;
    let end = book[FIRST + 1 + k] as usize;
    (first..end).any(|i| readable_row(book, held, sets, d, p, choice, k, i))
}

// Is the type of the value in row `i` chosen, with DiscloseOnError in the entry of index `k`, which holds it?
fn disclosing_row(
    book: &[u64; BOOK],
    held: &[u64; HELD],
    sets: &[u64; SETS],
    choice: Choice,
    k: usize,
    i: usize,
) -> bool
    requires { ((d p : Bytes) × Known d p book.now held.now sets.now) × (k < entry_count book.now) × (first_at book.now k ≤ i) × (i < first_at book.now (suc k)) × KnownChoice (schema book.now) choice }
    ensures { (σ : Setting) (es : List Stored) (s : Selection) (d p : Bytes) → World σ es d p book.now held.now sets.now → Chooses (schema book.now) s choice → result ≡ disclosing σ s (get_or es k blank).name (type_at (schema book.now) (rank_at held.now i)) }
{
    let rank = held[i] as usize;
    if chosen(choice, rank) {
        return may_type(sets, k + 1, rank, DISCLOSE_ON_ERROR);
    }
    false
}

// Has a chosen type that the entry of index `k` holds DiscloseOnError?
fn discloses(
    book: &[u64; BOOK],
    held: &[u64; HELD],
    sets: &[u64; SETS],
    choice: Choice,
    k: usize,
) -> bool
    requires { ((d p : Bytes) × Known d p book.now held.now sets.now) × (k < entry_count book.now) × KnownChoice (schema book.now) choice }
    ensures { (σ : Setting) (es : List Stored) (s : Selection) (d p : Bytes) → World σ es d p book.now held.now sets.now → Chooses (schema book.now) s choice → result ≡ any (λ v. disclosing σ s (get_or es k blank).name v.type) (get_or es k blank).values }
{
    let first = book[FIRST + k] as usize;
    let end = book[FIRST + 1 + k] as usize;
    (first..end).any(|i| disclosing_row(book, held, sets, choice, k, i))
}

// The outcome for an open entry, that of index `k`: a result, or where nothing is left insufficient access rights if a chosen type has DiscloseOnError, else
// no such attribute or value.
fn outcome_of(
    book: &[u64; BOOK],
    held: &[u64; HELD],
    sets: &[u64; SETS],
    d: &[u8],
    p: &[u8],
    choice: Choice,
    k: usize,
) -> Outcome
    requires { Known d.now p.now book.now held.now sets.now × (k < entry_count book.now) × KnownChoice (schema book.now) choice }
    ensures { (σ : Setting) (es : List Stored) (s : Selection) → World σ es d.now p.now book.now held.now sets.now → Chooses (schema book.now) s choice → result ≡ read_outcome σ s (entry_of (get_or es k blank)) }
{
    if choice.nothing {
        return Outcome::Result;
    }
    if readable_any(book, held, sets, d, p, choice, k) {
        return Outcome::Result;
    }
    if discloses(book, held, sets, choice, k) {
        return Outcome::InsufficientAccessRights;
    }
    Outcome::NoSuchAttributeOrValue
}

// The number of the entry of index `k` if its name is printed, else 0.
fn number(k: usize, named: bool) -> usize
    requires { k < 256 }
    ensures { result ≡ cond named (k + 1) 0 }
{
    if named {
        return k + 1;
    }
    0
}

// The plan of a read of the entry of index `k`, its name printed or not.
fn found(k: usize, named: bool) -> Plan
    requires { k < 256 }
    ensures { result ≡ read_plan k named }
{
    Plan {
        operation: operation::READ,
        outcome: Outcome::Result,
        more: 0,
        name: number(k, named),
        entry: k + 1,
        equal: 0,
        shown: 0,
    }
}

// The plan for an open entry, that of index `k`.
fn read_open(
    book: &[u64; BOOK],
    held: &[u64; HELD],
    sets: &[u64; SETS],
    d: &[u8],
    p: &[u8],
    choice: Choice,
    k: usize,
) -> Plan
    requires { Known d.now p.now book.now held.now sets.now × (k < entry_count book.now) × KnownChoice (schema book.now) choice }
    ensures { ((hits : List ℕ) → SoundPlan (entry_count book.now) result hits) × ((σ : Setting) (es : List Stored) (s : Selection) (hits : List ℕ) → World σ es d.now p.now book.now held.now sets.now → Chooses (schema book.now) s choice → planned σ es s result hits ≡ Answer.read_entry σ s (entry_of (get_or es k blank))) }
{
    let outcome = outcome_of(book, held, sets, d, p, choice, k);
    if !is_result(outcome) {
        return refused(operation::READ, outcome);
    }
    found(k, may_entry(sets, k + 1, RETURN_DN))
}

// The plan for entry number `b`; the root, 0, is no entry.
fn read_entry(
    book: &[u64; BOOK],
    held: &[u64; HELD],
    sets: &[u64; SETS],
    d: &[u8],
    p: &[u8],
    choice: Choice,
    b: usize,
    missing: usize,
) -> Plan
    requires { KnownBase d.now p.now book.now held.now sets.now (Some b) missing × KnownChoice (schema book.now) choice }
    ensures { ((hits : List ℕ) → SoundPlan (entry_count book.now) result hits) × ((σ : Setting) (es : List Stored) (n : Name) (s : Selection) (hits : List ℕ) → World σ es d.now p.now book.now held.now sets.now → Chooses (schema book.now) s choice → Base σ es n (Some b) missing → planned σ es s result hits ≡ Answer.answer σ (map entry_of es) (aliases_of σ es) n (Request.read s)) }
{
    let opened = opening(sets, b, READ);
    if !is_result(opened) {
        return withheld(operation::READ, opened, missing);
    }
    if b == 0 {
        return absent(operation::READ, missing);
    }
    read_open(book, held, sets, d, p, choice, b - 1)
}

// The plan of a read of the entry that is named: all its types or those chosen, with their values or without.
pub fn read(
    book: &[u64; BOOK],
    held: &[u64; HELD],
    sets: &[u64; SETS],
    d: &[u8],
    p: &[u8],
    choice: Choice,
    sought: Sought,
) -> Plan
    requires { KnownBase d.now p.now book.now held.now sets.now sought.base sought.missing × KnownChoice (schema book.now) choice }
    ensures { ((hits : List ℕ) → SoundPlan (entry_count book.now) result hits) × ((σ : Setting) (es : List Stored) (n : Name) (s : Selection) (hits : List ℕ) → World σ es d.now p.now book.now held.now sets.now → Chooses (schema book.now) s choice → Base σ es n sought.base sought.missing → planned σ es s result hits ≡ Answer.answer σ (map entry_of es) (aliases_of σ es) n (Request.read s)) }
{
    let base = sought.base;
    match base {
        Some(b) => read_entry(book, held, sets, d, p, choice, b, sought.missing),
        None => absent(operation::READ, sought.missing),
    }
}
