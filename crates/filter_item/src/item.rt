// The truth of one item for an entry. Undefined goes before all else; what is not held is false.
ghost use Rattle.std.specs.Prelude.{◌≡◌, ◌&&◌, List, ℕ, ◌<◌, get_or};
ghost use Rattle.rules.specs.Directory.{Stored, blank, entry_of};
ghost use Rattle.rules.specs.Decision.{Setting};
ghost use Rattle.rules.specs.FilterItem.{item_truth};
ghost use Rattle.access_set.specs.Member.{bit_of};
ghost use Rattle.tables.specs.Book.{schema};
ghost use Rattle.tables.specs.World.{Entries};
ghost use Rattle.filter_lines.specs.Lines.{RowsPlaced, Typed, kind_at, column_a, line_value, pieces_at};
ghost use Rattle.filter_item.specs.Items.{assertion_by, defined_by, satisfied_in};
ghost use Rattle.filter_matchable.specs.Matchable.{RowsWithin};
ghost use Rattle.filter_matchable.specs.Matchable.{MatchableAt, AskedIn};
ghost use Rattle.filter_matchable.specs.Candidate.{Admitted};

use super::rows::{RowsSought, equal, holds, some_ordered, some_row};
use filter_lines::lines::{FILTER, LINE, RANK, SECOND, value_of};
use filter_lines::pieces::{pieces_fit, substrings};
use filter_matchable::extent::Extent;
use filter_matchable::matchable::{END, in_word};
use filter_truth::truth_of;
use rules::Truth;
use sheet_kind::{Kind, is};
use tables::book::{BOOK, FIRST, SCHEMA, TYPES};
use tables::held::HELD;

// Do the value or the pieces of the item in line `k` fit the syntax `s`, and has the syntax the item's rule?
fn defined(s: u64, q: &[u8], rows: &[u64; FILTER], lines: usize, k: usize) -> bool
    requires { RowsPlaced q.now rows.now lines × (k < lines) }
    ensures { result ≡ defined_by s (kind_at rows.now k) (pieces_at q.now rows.now lines k) (line_value q.now rows.now k) }
{
    let kind = rows[k * LINE];
    let v = value_of(q, rows, k);
    if is(kind, Kind::Equality) {
        return value_syntax::fits(s, v);
    }
    if is(kind, Kind::AtLeast) {
        return value_syntax::ordered(s) & value_syntax::fits(s, v);
    }
    if is(kind, Kind::AtMost) {
        return value_syntax::ordered(s) & value_syntax::fits(s, v);
    }
    if is(kind, Kind::Present) {
        return true;
    }
    value_syntax::searchable(s) & pieces_fit(s, q, rows, lines, k + 1, rows[k * LINE + SECOND])
}

// Is FilterMatch granted on the type of the item in line `k`, held or not, and is the item defined?
fn decidable(
    types: u64,
    rank: usize,
    s: u64,
    q: &[u8],
    rows: &[u64; FILTER],
    lines: usize,
    k: usize,
) -> bool
    requires { (rank < 64) × RowsPlaced q.now rows.now lines × (k < lines) }
    ensures { result ≡ (bit_of types rank && defined_by s (kind_at rows.now k) (pieces_at q.now rows.now lines k) (line_value q.now rows.now k)) }
{
    if in_word(types, rank) {
        return defined(s, q, rows, lines, k);
    }
    false
}

// Is the item in line `k`, which is defined, true: is its rank held, for "present", or does some value with FilterMatch granted pass its test?
fn satisfied(
    held: &[u64; HELD],
    values: &[u64; 34],
    d: &[u8],
    sought: RowsSought,
    s: u64,
    q: &[u8],
    rows: &[u64; FILTER],
    lines: usize,
    k: usize,
) -> bool
    requires { RowsWithin d.now held.now sought.first sought.end × RowsPlaced q.now rows.now lines × (k < lines) }
    ensures { result ≡ satisfied_in d.now held.now values.now sought.first sought.end sought.rank s (kind_at rows.now k) (pieces_at q.now rows.now lines k) (line_value q.now rows.now k) }
{
    let kind = rows[k * LINE];
    if is(kind, Kind::Present) {
        return holds(held, sought);
    }
    let v = value_of(q, rows, k);
    if is(kind, Kind::Equality) {
        return some_row(held, values, d, sought, |u| equal(s, v, u));
    }
    if is(kind, Kind::AtLeast) {
        return some_ordered(held, values, d, sought, s, true, v);
    }
    if is(kind, Kind::AtMost) {
        return some_ordered(held, values, d, sought, s, false, v);
    }
    let n = rows[k * LINE + SECOND];
    some_row(
        held,
        values,
        d,
        sought,
        |u| substrings(q, rows, lines, k + 1, n, u),
    )
}

// The truth of the item in line `line` for the entry of index `k`, a candidate of the search. `types` and `values` are which of its types and values FilterMatch is granted on.
pub fn item(
    book: &[u64; BOOK],
    held: &[u64; HELD],
    d: &[u8],
    types: u64,
    values: &[u64; 34],
    extent: Extent,
    k: usize,
    q: &[u8],
    rows: &[u64; FILTER],
    line: usize,
) -> Truth
    requires { Admitted d.now book.now held.now extent k types values.now × AskedIn book.now rows.now line extent.ranks × RowsPlaced q.now rows.now extent.lines × Typed (schema book.now) rows.now extent.lines × (line < extent.lines) }
    ensures { (σ : Setting) (es : List Stored) (asked : ℕ) → Entries σ es d.now book.now held.now → MatchableAt σ es d.now book.now held.now k asked types values.now → AskedIn book.now rows.now line asked → result ≡ item_truth σ (entry_of (get_or es k blank)) (assertion_by (kind_at rows.now line) (column_a rows.now line) (line_value q.now rows.now line) (pieces_at q.now rows.now extent.lines line)) }
{
    let lines = extent.lines;
    let rank = rows[line * LINE + RANK] as usize;
    if book[TYPES] as usize <= rank {
        return Truth::Undefined;
    }
    let s = book[SCHEMA + rank] % 4;
    if decidable(types, rank, s, q, rows, lines, line) {
        let sought = RowsSought {
            first: book[FIRST + k] as usize,
            end: book[END + k] as usize,
            rank,
        };
        return truth_of(satisfied(held, values, d, sought, s, q, rows, lines, line));
    }
    Truth::Undefined
}
