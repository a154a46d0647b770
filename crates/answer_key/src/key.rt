// The keys of entries: of each its smallest value of a type that may be read.
ghost use Rattle.std.specs.Prelude.{◌≡◌, List, suc, ◌≤◌, ◌<◌, length, get_or};
ghost use Rattle.rules.specs.Name.{part};
ghost use Rattle.rules.specs.Directory.{Stored, blank};
ghost use Rattle.rules.specs.Decision.{Setting};
ghost use Rattle.rules.specs.Derived.{Each};
ghost use Rattle.tables.specs.Book.{type_count, entry_count, schema, first_at};
ghost use Rattle.tables.specs.Held.{rank_at, bytes_at, type_at};
ghost use Rattle.tables.specs.World.{World, Known};
ghost use Rattle.answer_key.specs.Keys.{KeyOf, readable_as};

use super::order::{NONE, smaller};
use access_may::{may_type, may_value};
use tables::book::{BOOK, FIRST, SCHEMA};
use tables::held::{HELD, bytes};
use tables::sets::{READ, SETS};

// Is the value in row `i` of the type of this rank, with Read granted on type and value in the entry of index `k`?
fn readable(
    book: &[u64; BOOK],
    held: &[u64; HELD],
    sets: &[u64; SETS],
    d: &[u8],
    p: &[u8],
    rank: usize,
    k: usize,
    i: usize,
) -> bool
    requires { Known d.now p.now book.now held.now sets.now × (k < entry_count book.now) × (rank < type_count book.now) × (first_at book.now k ≤ i) × (i < first_at book.now (suc k)) }
    ensures { (σ : Setting) (es : List Stored) → World σ es d.now p.now book.now held.now sets.now → result ≡ readable_as σ (get_or es k blank).name (type_at (schema book.now) rank) (part (type_at (schema book.now) (rank_at held.now i)) (bytes_at d.now held.now i)) }
{
    if held[i] as usize != rank {
        return false;
    }
    if may_type(sets, k + 1, rank, READ) {
        return may_value(book, sets, p, k + 1, rank, bytes(held, d, i), READ);
    }
    false
}

// The row of the key of the entry of index `k`, from its last value to its first; `NONE` without one.
fn key_of(
    book: &[u64; BOOK],
    held: &[u64; HELD],
    sets: &[u64; SETS],
    d: &[u8],
    p: &[u8],
    rank: usize,
    k: usize,
) -> usize
    requires { Known d.now p.now book.now held.now sets.now × (k < entry_count book.now) × (rank < type_count book.now) }
    ensures { KeyOf d.now p.now book.now held.now sets.now (type_at (schema book.now) rank) k result }
{
    let syntax = book[SCHEMA + rank] % 4;
    let first = book[FIRST + k] as usize;
    let end = book[FIRST + 1 + k] as usize;
    let mut best = NONE;
    for i in (first..end).rev() {
        if readable(book, held, sets, d, p, rank, k, i) {
            best = smaller(held, d, syntax, i, best);
        }
    }
    best
}

// Notes the keys of the entries found, each at its index.
pub fn note_keys(
    book: &[u64; BOOK],
    held: &[u64; HELD],
    sets: &[u64; SETS],
    d: &[u8],
    p: &[u8],
    rank: usize,
    found: &[usize],
    keys: &mut [usize; 256],
)
    requires { Known d.now p.now book.now held.now sets.now × (rank < type_count book.now) × Each (λ k. k < entry_count book.now) found.now × (length keys.old ≡ 256) }
    ensures { (length keys.new ≡ 256) × Each (λ k. KeyOf d.now p.now book.now held.now sets.now (type_at (schema book.now) rank) k (get_or keys.new k 0)) found.now }
{
    for k in found {
        keys[*k] = key_of(book, held, sets, d, p, rank, *k);
    }
}
