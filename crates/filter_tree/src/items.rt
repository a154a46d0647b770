// The truths of a filter's items for an entry, found one after the other and noted for each line, before the filter is evaluated.
ghost use Rattle.std.specs.Prelude.{◌≡◌, ℕ, ◌<◌, List, get_or};
ghost use Rattle.rules.specs.Directory.{Stored, blank, entry_of};
ghost use Rattle.rules.specs.Decision.{Setting};
ghost use Rattle.rules.specs.FilterItem.{item_truth};
ghost use Rattle.tables.specs.Book.{schema};
ghost use Rattle.tables.specs.World.{Entries};
ghost use Rattle.filter_lines.specs.Lines.{RowsPlaced, Typed};
ghost use Rattle.filter_matchable.specs.Mask.{Masks};
ghost use Rattle.filter_matchable.specs.Matchable.{MatchableAt};
ghost use Rattle.filter_matchable.specs.Candidate.{Admitted};
ghost use Rattle.filter_tree.specs.Truths.{TruthAt, Truths};

use filter_item::item::item;
use filter_lines::joins;
use filter_lines::lines::{FILTER, LINE, LINES};
use filter_matchable::extent::Extent;
use rules::Truth;
use sheet_kind::{Kind, is};
use tables::book::BOOK;
use tables::held::HELD;

// The truth for line `line`: that of its item for the entry of index `k`, and undefined for an operator.
fn line_truth(
    book: &[u64; BOOK],
    held: &[u64; HELD],
    d: &[u8],
    types: u64,
    values: &[u64; 34],
    extent: Extent,
    k: usize,
    q: &[u8],
    rows: &[u64; FILTER],
    line: usize,
) -> Truth
    requires { Admitted d.now book.now held.now extent k types values.now × Masks rows.now extent.lines extent.ranks × RowsPlaced q.now rows.now extent.lines × Typed (schema book.now) rows.now extent.lines × (line < extent.lines) }
    ensures { (σ : Setting) (es : List Stored) (asked : ℕ) → Entries σ es d.now book.now held.now → MatchableAt σ es d.now book.now held.now k asked types values.now → Masks rows.now extent.lines asked → TruthAt (item_truth σ (entry_of (get_or es k blank))) q.now rows.now extent.lines line result }
{
    let kind = rows[line * LINE];
    if joins(kind) {
        return Truth::Undefined;
    }
    if is(kind, Kind::Not) {
        return Truth::Undefined;
    }
    item(book, held, d, types, values, extent, k, q, rows, line)
}

// The truth of the item in each line, for the entry of index `k`.
pub(crate) fn note_truths(
    book: &[u64; BOOK],
    held: &[u64; HELD],
    d: &[u8],
    types: u64,
    values: &[u64; 34],
    extent: Extent,
    k: usize,
    q: &[u8],
    rows: &[u64; FILTER],
) -> [Truth; LINES]
    requires { Admitted d.now book.now held.now extent k types values.now × Masks rows.now extent.lines extent.ranks × RowsPlaced q.now rows.now extent.lines × Typed (schema book.now) rows.now extent.lines }
    ensures { (σ : Setting) (es : List Stored) (asked : ℕ) → Entries σ es d.now book.now held.now → MatchableAt σ es d.now book.now held.now k asked types values.now → Masks rows.now extent.lines asked → Truths (item_truth σ (entry_of (get_or es k blank))) q.now rows.now extent.lines extent.lines result }
{
    let mut truths = [Truth::Undefined; LINES];
    for line in 0..extent.lines {
        truths[line] = line_truth(book, held, d, types, values, extent, k, q, rows, line);
    }
    truths
}
