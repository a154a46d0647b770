// FilterMatch on the types and values of an entry, asked once, before the items of a filter.
ghost use Rattle.std.specs.Prelude.{◌≡◌, ◌&&◌, cond, List, ℕ, suc, ◌-◌, ◌%◌, ◌^◌, ◌≤◌, ◌<◌, length};
ghost use Rattle.rules.specs.Sheet.{Bytes};
ghost use Rattle.rules.specs.Directory.{Stored};
ghost use Rattle.rules.specs.Permission.{FilterMatch};
ghost use Rattle.rules.specs.Decision.{Setting, of_type, of_value};
ghost use Rattle.access_set.specs.Member.{bit_of};
ghost use Rattle.tables.specs.Book.{entry_count, schema, first_at};
ghost use Rattle.tables.specs.Held.{rank_at, bytes_at, type_at};
ghost use Rattle.tables.specs.Sets.{granted_at};
ghost use Rattle.tables.specs.World.{World, Known, KnownTypes};
ghost use Rattle.filter_matchable.specs.Matchable.{MatchableTypes, MatchableValues, MatchableAt};
ghost use Rattle.filter_matchable.specs.Candidate.{Candidate};

use super::extent::Extent;
use access_may::{may_type, may_value};
use tables::book::{BOOK, FIRST, TYPES};
use tables::held::{HELD, bytes};
use tables::sets::{FILTER_MATCH, SETS};

// Where the book has the end of an entry's rows.
pub const END: usize = FIRST + 1;

// Bit r of `types`: FilterMatch is granted on the type of rank r. Bit j % 64 of word j / 64 of `values`: the same of the value in the entry's row j.
#[derive(Drop)]
pub struct Matchable {
    pub types: u64,
    pub values: [u64; 34],
}

// Is bit `i` set?
pub fn in_word(x: u64, i: usize) -> bool
    requires { i < 64 }
    ensures { result ≡ bit_of x i }
{
    (x >> i) % 2 == 1
}

// Bit `j % 64`, or none.
pub(crate) fn bit_if(b: bool, j: usize) -> u64
    ensures { result ≡ cond b (2 ^ (j % 64)) 0 }
{
    if b {
        return 1u64 << (j % 64);
    }
    0
}

// Is the type of rank `r` asked about, and FilterMatch granted on it in entry number `e`?
fn type_matchable(sets: &[u64; SETS], e: usize, asked: u64, r: usize) -> bool
    requires { KnownTypes sets.now e (suc r) }
    ensures { (σ : Setting) (es : List Stored) (d p : Bytes) (book held : List ℕ) → World σ es d p book held sets.now → e ≤ length es → r < length (schema book) → result ≡ (bit_of asked r && granted_at σ es e (of_type (type_at (schema book) r)) FilterMatch) }
{
    if in_word(asked, r) {
        return may_type(sets, e, r, FILTER_MATCH);
    }
    false
}

// FilterMatch on the first `n` types of the schema, of those that are asked about.
fn matchable_types(sets: &[u64; SETS], n: usize, e: usize, asked: u64) -> u64
    requires { KnownTypes sets.now e n }
    ensures { (σ : Setting) (es : List Stored) (d p : Bytes) (book held : List ℕ) → World σ es d p book held sets.now → e ≤ length es → n ≤ length (schema book) → MatchableTypes σ es book e asked n result }
{
    let mut x: u64 = 0;
    for r in 0..n {
        x |= bit_if(type_matchable(sets, e, asked, r), r);
    }
    x
}

// Is the type of the value in row `i`, of the entry of index `k`, asked about, and FilterMatch granted on the value?
fn value_matchable(
    book: &[u64; BOOK],
    held: &[u64; HELD],
    sets: &[u64; SETS],
    d: &[u8],
    p: &[u8],
    k: usize,
    asked: u64,
    i: usize,
) -> bool
    requires { Known d.now p.now book.now held.now sets.now × (k < entry_count book.now) × (first_at book.now k ≤ i) × (i < first_at book.now (suc k)) }
    ensures { (σ : Setting) (es : List Stored) → World σ es d.now p.now book.now held.now sets.now → result ≡ (bit_of asked (rank_at held.now i) && granted_at σ es (suc k) (of_value (type_at (schema book.now) (rank_at held.now i)) (bytes_at d.now held.now i)) FilterMatch) }
{
    let rank = held[i] as usize;
    if in_word(asked, rank) {
        return may_value(book, sets, p, k + 1, rank, bytes(held, d, i), FILTER_MATCH);
    }
    false
}

// FilterMatch on the values of the entry of index `k`, of those whose types are asked about.
fn matchable_values(
    book: &[u64; BOOK],
    held: &[u64; HELD],
    sets: &[u64; SETS],
    d: &[u8],
    p: &[u8],
    k: usize,
    asked: u64,
) -> [u64; 34]
    requires { Known d.now p.now book.now held.now sets.now × (k < entry_count book.now) }
    ensures { (σ : Setting) (es : List Stored) → World σ es d.now p.now book.now held.now sets.now → MatchableValues σ es d.now book.now held.now k asked (first_at book.now (suc k)) result }
{
    let first = book[FIRST + k] as usize;
    let end = book[END + k] as usize;
    let mut values: [u64; 34] = [0; 34];
    for i in first..end {
        let j = i - first;
        values[j / 64] |= bit_if(value_matchable(book, held, sets, d, p, k, asked, i), j);
    }
    values
}

// FilterMatch on the types and values of the entry of index `k`, a candidate of the search, for the types of the filter.
pub fn ask(
    book: &[u64; BOOK],
    held: &[u64; HELD],
    sets: &[u64; SETS],
    d: &[u8],
    p: &[u8],
    extent: Extent,
    k: usize,
) -> Matchable
    requires { Candidate d.now p.now book.now held.now sets.now extent k }
    ensures { (σ : Setting) (es : List Stored) → World σ es d.now p.now book.now held.now sets.now → MatchableAt σ es d.now book.now held.now k extent.ranks result.types result.values }
{
    Matchable {
        types: matchable_types(sets, book[TYPES] as usize, k + 1, extent.ranks),
        values: matchable_values(book, held, sets, d, p, k, extent.ranks),
    }
}
