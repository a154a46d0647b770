// A filter evaluated line by line, an operator before its parts.
ghost use Rattle.std.specs.Prelude.{◌≡◌, ℕ, ◌+◌, ◌≤◌, ◌<◌, List};
ghost use Rattle.rules.specs.Sheet.{Bytes};
ghost use Rattle.rules.specs.Directory.{Stored};
ghost use Rattle.rules.specs.Judge.{Grammar};
ghost use Rattle.rules.specs.Decision.{Setting};
ghost use Rattle.rules.specs.Filter.{Assertion, Filter};
ghost use Rattle.rules.specs.Places.{lines_at};
ghost use Rattle.tables.specs.FilterLines.{evaluated, evaluate_lines};
ghost use Rattle.rules.specs.declared.Truth.{Truth};
ghost use Rattle.tables.specs.Book.{width, schema};
ghost use Rattle.tables.specs.World.{World};
ghost use Rattle.filter_lines.specs.Lines.{LinesNoted, KnownLines, Typed, kind_at, column_b, position_at};
ghost use Rattle.filter_matchable.specs.Mask.{Masks};
ghost use Rattle.filter_matchable.specs.Candidate.{Candidate};
ghost use Rattle.filter_tree.specs.Tree.{after_by, matches_at, FilterAt, KnownFilter};
ghost use Rattle.filter_tree.specs.Truths.{Truths, KnownTruths};

use super::items::note_truths;
use filter_lines::joins;
use filter_lines::lines::{FILTER, FIRST, LINE, LINES, SECOND};
use filter_matchable::extent::Extent;
use filter_matchable::matchable::ask;
use filter_truth::{is_true, joined, negated, start};
use rules::{Edition, Truth};
use sheet_kind::{Kind, is};
use tables::book::BOOK;
use tables::held::HELD;
use tables::sets::SETS;

// The line after the item in line `k`: a substrings item has those of its pieces.
fn after_item(rows: &[u64], lines: usize, k: usize) -> usize
    requires { KnownLines rows.now lines × (k < lines) }
    ensures { (result ≤ lines) × ((w : ℕ) (q : Bytes) → LinesNoted w q rows.now lines → lines_at w q (position_at rows.now result) ≡ after_by (kind_at rows.now k) (column_b rows.now k) (lines_at w q (position_at rows.now (k + 1)))) }
{
    let kind = rows[k * LINE];
    let next = k + 1;
    if is(kind, Kind::Equality) {
        return next;
    }
    if is(kind, Kind::AtLeast) {
        return next;
    }
    if is(kind, Kind::AtMost) {
        return next;
    }
    if is(kind, Kind::Present) {
        return next;
    }
    let pieces = rows[k * LINE + SECOND];
    if ((lines - next) as u64) < pieces {
        return lines;
    }
    next + pieces as usize
}

// The truth of a filter, and the line after it.
#[derive(Drop)]
pub(crate) struct Evaluation {
    pub truth: Truth,
    pub next: usize,
}

// The truth of the filter in line `k`, at most `depth` levels deep, by the truths of the items and the edition. Every part of "and" and "or" is evaluated: its lines
// are passed over in any case.
pub(crate) fn evaluate(
    rows: &[u64],
    truths: &[Truth; LINES],
    lines: usize,
    k: usize,
    depth: usize,
    edition: Edition,
) -> Evaluation
    requires { KnownTruths rows.now lines truths.now × (k ≤ lines) }
    ensures { (result.next ≤ lines) × ((w : ℕ) (q : Bytes) (m : Assertion → Truth) → LinesNoted w q rows.now lines → Truths m q rows.now lines lines truths.now → evaluated result.truth (lines_at w q (position_at rows.now result.next)) ≡ evaluate_lines edition m depth (lines_at w q (position_at rows.now k))) }
{
    if depth == 0 {
        return Evaluation {
            truth: Truth::Undefined,
            next: k,
        };
    }
    if lines <= k {
        return Evaluation {
            truth: Truth::Undefined,
            next: k,
        };
    }
    let kind = rows[k * LINE];
    if is(kind, Kind::Not) {
        let part = evaluate(rows, truths, lines, k + 1, depth - 1, edition);
        return Evaluation {
            truth: negated(part.truth),
            next: part.next,
        };
    }
    if joins(kind) {
        let conjunction = is(kind, Kind::And);
        let mut next = k + 1;
        let parts = rows[k * LINE + FIRST];
        let mut truth = start(edition, conjunction, parts);
        for _i in 0..parts {
            let part = evaluate(rows, truths, lines, next, depth - 1, edition);
            truth = joined(edition, conjunction, truth, part.truth);
            next = part.next;
        }
        return Evaluation { truth, next };
    }
    Evaluation {
        truth: truths[k],
        next: after_item(rows, lines, k),
    }
}

// Is the filter, whose lines are `rows`, true for the entry of index `k`? The entry is a candidate of the search: its own permissions come first.
pub fn matches(
    book: &[u64; BOOK],
    held: &[u64; HELD],
    sets: &[u64; SETS],
    d: &[u8],
    p: &[u8],
    q: &[u8],
    rows: &[u64; FILTER],
    extent: Extent,
    k: usize,
) -> bool
    requires { Candidate d.now p.now book.now held.now sets.now extent k × LinesNoted (width book.now) q.now rows.now extent.lines × Typed (schema book.now) rows.now extent.lines × Masks rows.now extent.lines extent.ranks × KnownFilter (width book.now) q.now (position_at rows.now 0) }
    ensures { (σ : Setting) (es : List Stored) (g : Grammar) (f : Filter) → World σ es d.now p.now book.now held.now sets.now → FilterAt g (width book.now) q.now (position_at rows.now 0) f → result ≡ matches_at σ es extent.edition f k }
{
    let open = ask(book, held, sets, d, p, extent, k);
    let truths = note_truths(book, held, d, open.types, &open.values, extent, k, q, rows);
    let edition = extent.edition;
    let whole = evaluate(rows, &truths, extent.lines, 0, 16, edition);
    is_true(whole.truth)
}
