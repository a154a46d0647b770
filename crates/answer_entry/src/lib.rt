// What is decided of an entry by the permissions on the entry alone: whether read and compare open it, whether list and search may return it; and the
// plan of the entries that were found.
#![tactic(auto)]

ghost use Rattle.std.specs.Prelude.{◌≡◌, Bool, List, ℕ, ◌≤◌, ◌<◌, ◌^◌, length, take};
ghost use Rattle.rules.specs.Sheet.{Bytes};
ghost use Rattle.rules.specs.Directory.{Stored};
ghost use Rattle.rules.specs.Decision.{Setting};
ghost use Rattle.tables.specs.World.{World, KnownEntry};
ghost use Rattle.answer_entry.specs.Opening.{opening_at, withheld_plan};
ghost use Rattle.answer_entry.specs.Passing.{Indices, passing};
ghost use Rattle.answer_entry.specs.Returned.{browsable_at, returnable_at, success_plan, limited_plan, returned_plan};

use access_may::may_entry;
use rules::Outcome;
use tables::plan::{Plan, absent, refused};
use tables::sets::{BROWSE, DISCLOSE_ON_ERROR, READ, RETURN_DN, SETS};

// The entry that a request names: its number, if there is one, and the number of the entry with the matched name.
#[derive(Drop)]
pub struct Sought {
    pub base: Option<usize>,
    pub missing: usize,
}

// The outcome of opening entry number `e` by permission `q`: a result with it, else insufficient access rights with DiscloseOnError, else no such object.
pub fn opening(sets: &[u64; SETS], e: usize, q: usize) -> Outcome
    requires { (q < 6) × KnownEntry sets.now e }
    ensures { (σ : Setting) (es : List Stored) (d p : Bytes) (book held : List ℕ) → World σ es d p book held sets.now → e ≤ length es → result ≡ opening_at σ es e (2 ^ q) }
{
    if may_entry(sets, e, q) {
        return Outcome::Result;
    }
    if may_entry(sets, e, DISCLOSE_ON_ERROR) {
        return Outcome::InsufficientAccessRights;
    }
    Outcome::NoSuchObject
}

// The plan of an operation where the entry is not open, by the outcome of opening it.
pub fn withheld(operation: u64, outcome: Outcome, missing: usize) -> Plan
    ensures { result ≡ withheld_plan operation outcome missing }
{
    match outcome {
        Outcome::NoSuchObject => absent(operation, missing),
        _ => refused(operation, outcome),
    }
}

// Browse, or for the base Browse or Read, on entry number `e`.
fn browsable(sets: &[u64; SETS], e: usize, base: bool) -> bool
    requires { KnownEntry sets.now e }
    ensures { (σ : Setting) (es : List Stored) (d p : Bytes) (book held : List ℕ) → World σ es d p book held sets.now → e ≤ length es → result ≡ browsable_at σ es e base }
{
    if may_entry(sets, e, BROWSE) {
        return true;
    }
    if base {
        return may_entry(sets, e, READ);
    }
    false
}

// May entry number `e` be returned? It has to be browsable, with ReturnDN.
pub fn returnable(sets: &[u64; SETS], e: usize, base: bool) -> bool
    requires { KnownEntry sets.now e }
    ensures { (σ : Setting) (es : List Stored) (d p : Bytes) (book held : List ℕ) → World σ es d p book held sets.now → e ≤ length es → result ≡ returnable_at σ es e base }
{
    if browsable(sets, e, base) {
        return may_entry(sets, e, RETURN_DN);
    }
    false
}

// Success: the first `shown` of the entries found, and whether there are more.
fn success(operation: u64, more: u64, shown: usize) -> Plan
    ensures { result ≡ success_plan operation more shown }
{
    Plan {
        operation,
        outcome: Outcome::Result,
        more,
        name: 0,
        entry: 0,
        equal: 0,
        shown,
    }
}

// The plan of `count` entries found, within the size limit; 0 is none.
fn limited(operation: u64, limit: u64, count: usize) -> Plan
    ensures { result ≡ limited_plan operation limit count }
{
    if limit == 0 {
        return success(operation, 0, count);
    }
    if limit < count as u64 {
        return success(operation, 1, limit as usize);
    }
    success(operation, 0, count)
}

// The plan of `count` entries found; none is "no such object" unless the base is disclosed.
pub fn returned(operation: u64, missing: usize, disclosed: bool, limit: u64, count: usize) -> Plan
    ensures { result ≡ returned_plan operation missing disclosed limit count }
{
    if disclosed {
        return limited(operation, limit, count);
    }
    if count == 0 {
        return absent(operation, missing);
    }
    limited(operation, limit, count)
}

// Notes the indices below `count` that pass the test, in order; how many they are.
pub fn note_passing<F: Fn(usize) -> bool>(count: usize, hits: &mut [usize; 256], test: F) -> usize
    requires room { count ≤ 256 }
    requires callable { (k : ℕ) → k < count → F.pre test k }
    ensures indices { Indices count result hits.old hits.new }
    ensures passing { (t : ℕ → Bool) → ((k : ℕ) (b : Bool) → k < count → F.post test k b → b ≡ t k) → take result hits.new ≡ passing t count }
{
    let mut n: usize = 0;
    for k in 0..count {
        if test(k) {
            hits[n] = k;
            n += 1;
        }
    }
    n
}
