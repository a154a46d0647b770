// Search: the entries of the subset that the filter is true of, by number, in the order that is asked for. The filter's lines are read once; it is judged of an entry only after the
// permissions on the entry, as `matches` demands.
#![tactic(auto)]

ghost use Rattle.std.specs.Prelude.{◌≡◌, List, ◌++◌, map, ℕ, suc, ◌+◌, ◌*◌, ◌≤◌, ◌<◌, length, take, drop};
ghost use Rattle.rules.specs.Sheet.{Bytes};
ghost use Rattle.rules.specs.Name.{Name};
ghost use Rattle.rules.specs.Directory.{Stored, entry_of};
ghost use Rattle.rules.specs.Decision.{Setting};
ghost use Rattle.rules.specs.Filter.{Filter};
ghost use Rattle.rules.specs.Judge.{Grammar};
ghost use Rattle.rules.specs.Request as Request;
ghost use Rattle.rules.specs.Request.{Search};
ghost use Rattle.rules.specs.Places.{ordering_by};
ghost use Rattle.rules.specs.Derived.{Each};
ghost use Rattle.rules.specs.Answer.{answer};
ghost use Rattle.tables.specs.Numbers.{within_number};
ghost use Rattle.tables.specs.Book.{width, entry_count};
ghost use Rattle.tables.specs.Book as Book;
ghost use Rattle.tables.specs.World.{World, Known, Entries};
ghost use Rattle.tables.specs.Plan.{aliases_of, planned};
ghost use Rattle.tables.specs.Sound.{Base, KnownBase, SoundPlan};
ghost use Rattle.answer_entry.specs.Passing.{Indices, passing, over};
ghost use Rattle.filter_lines.specs.Lines.{LINES, LinesNoted, Typed, position_at};
ghost use Rattle.filter_matchable.specs.Mask.{Masks};
ghost use Rattle.filter_matchable.specs.Candidate.{Searched};
ghost use Rattle.filter_tree.specs.Tree.{FilterAt, KnownFilter};
ghost use Rattle.answer_arrange.specs.Arrange.{arranged_at};
ghost use Rattle.answer_search.specs.Hits.{found_at, search_found};
ghost use Rattle.answer_search.specs.Query.{Seeks, KnownQuery};

use access_may::may_entry;
use answer_arrange::arrange;
use answer_entry::{Sought, note_passing, returnable, returned};
use directory_lookup::climb::climbs;
use filter_lines::lines::{FILTER, note};
use filter_matchable::extent::Extent;
use filter_matchable::mask::mask;
use filter_tree::tree::matches;
use rules::subset::{BASE, ONE_LEVEL};
use rules::{Edition, operation};
use tables::book::{BOOK, ENTRIES, PARENT, WIDTH, schema};
use tables::held::HELD;
use tables::plan::{Plan, absent};
use tables::sets::{DISCLOSE_ON_ERROR, SETS};

// What a search asks: at most how many entries (0 is no limit), the type that orders them (0 is none) and whether they fall, the subset, the position
// of the filter's first line, and the logic that it is evaluated by.
#[derive(Clone, Copy)]
pub struct Query {
    pub limit: u64,
    pub order_type: u64,
    pub falling: bool,
    pub subset: u64,
    pub filter: usize,
    pub edition: Edition,
}

// Is the entry of index `k` in the subset of base number `b`?
fn within(book: &[u64; BOOK], b: usize, subset: u64, k: usize) -> bool
    requires { (k < entry_count book.now) × ((σ : Setting) × (es : List Stored) × (d : Bytes) × (held : List ℕ) × Entries σ es d book.now held) }
    ensures { (σ : Setting) (es : List Stored) (d : Bytes) (held : List ℕ) → Entries σ es d book.now held → result ≡ within_number es subset b (suc k) }
{
    if subset == BASE {
        return k + 1 == b;
    }
    if subset == ONE_LEVEL {
        return book[PARENT + k] as usize == b;
    }
    climbs(book, b, k + 1)
}

// Does search return the entry of index `k`? It is within the subset, may be returned, and the filter is true of it.
fn found_at(
    book: &[u64; BOOK],
    held: &[u64; HELD],
    sets: &[u64; SETS],
    d: &[u8],
    p: &[u8],
    q: &[u8],
    rows: &[u64; FILTER],
    extent: Extent,
    k: usize,
) -> bool
    requires { Searched d.now p.now book.now held.now sets.now extent × (k < entry_count book.now) × LinesNoted (width book.now) q.now rows.now extent.lines × Typed (Book.schema book.now) rows.now extent.lines × Masks rows.now extent.lines extent.ranks × KnownFilter (width book.now) q.now (position_at rows.now 0) }
    ensures { (σ : Setting) (es : List Stored) (g : Grammar) (f : Filter) → World σ es d.now p.now book.now held.now sets.now → FilterAt g (width book.now) q.now (position_at rows.now 0) f → result ≡ found_at σ es extent.base extent.subset extent.edition f k }
{
    if !within(book, extent.base, extent.subset, k) {
        return false;
    }
    if !returnable(sets, k + 1, k + 1 == extent.base) {
        return false;
    }
    matches(book, held, sets, d, p, q, rows, extent, k)
}

// Notes the indices of the entries that search returns, in order; how many they are.
fn found(
    book: &[u64; BOOK],
    held: &[u64; HELD],
    sets: &[u64; SETS],
    d: &[u8],
    p: &[u8],
    q: &[u8],
    rows: &[u64; FILTER],
    extent: Extent,
    hits: &mut [usize; 256],
) -> usize
    requires { Searched d.now p.now book.now held.now sets.now extent × (length hits.old ≡ 256) × LinesNoted (width book.now) q.now rows.now extent.lines × Typed (Book.schema book.now) rows.now extent.lines × Masks rows.now extent.lines extent.ranks × KnownFilter (width book.now) q.now (position_at rows.now 0) }
    ensures { Indices (entry_count book.now) result hits.old hits.new × ((σ : Setting) (es : List Stored) (g : Grammar) (f : Filter) → World σ es d.now p.now book.now held.now sets.now → FilterAt g (width book.now) q.now (position_at rows.now 0) f → take result hits.new ≡ passing (found_at σ es extent.base extent.subset extent.edition f) (length es)) }
{
    note_passing(book[ENTRIES] as usize, hits, |k| {
        found_at(book, held, sets, d, p, q, rows, extent, k)
    })
}

// Puts the first `n` of the hits in the order that is asked for.
fn in_order(
    book: &[u64; BOOK],
    held: &[u64; HELD],
    sets: &[u64; SETS],
    d: &[u8],
    p: &[u8],
    query: Query,
    hits: &mut [usize],
    n: usize,
)
    requires { Known d.now p.now book.now held.now sets.now × (n ≤ length hits.old) × Each (λ k. k < entry_count book.now) (take n hits.old) }
    ensures { (σ : Setting) (es : List Stored) → World σ es d.now p.now book.now held.now sets.now → hits.new ≡ arranged_at σ es (ordering_by query.order_type query.falling) (take n hits.old) ++ drop n hits.old }
{
    arrange(
        book,
        held,
        sets,
        d,
        p,
        query.order_type,
        query.falling,
        &mut hits[0..n],
    );
}

// The plan of a search: the entries of the subset that may be returned and that the filter is true of, in order, within the size limit.
pub fn search(
    book: &[u64; BOOK],
    held: &[u64; HELD],
    sets: &[u64; SETS],
    d: &[u8],
    p: &[u8],
    q: &[u8],
    sought: Sought,
    query: Query,
    hits: &mut [usize; 256],
) -> Plan
    requires { KnownBase d.now p.now book.now held.now sets.now sought.base sought.missing × (length hits.old ≡ 256) × (length q.now ≤ (5 * width book.now + 1) * LINES) × KnownQuery (width book.now) q.now query }
    ensures { SoundPlan (entry_count book.now) result hits.new × ((σ : Setting) (es : List Stored) (g : Grammar) (n : Name) (s : Search) → World σ es d.now p.now book.now held.now sets.now → Base σ es n sought.base sought.missing → Seeks g (width book.now) q.now s query → planned σ es s.selection result hits.new ≡ answer σ (map entry_of es) (aliases_of σ es) n (Request.search s)) × ((σ : Setting) (es : List Stored) (g : Grammar) (s : Search) → World σ es d.now p.now book.now held.now sets.now → Seeks g (width book.now) q.now s query → hits.new ≡ over (search_found σ es s sought.base) hits.old) }
{
    let base = sought.base;
    let Some(b) = base else {
        return absent(operation::SEARCH, sought.missing);
    };
    let mut rows: [u64; FILTER] = [0; FILTER];
    let lines = note(
        schema(book),
        book[WIDTH] as usize,
        q,
        query.filter,
        &mut rows,
    );
    let edition = query.edition;
    let extent = Extent {
        base: b,
        subset: query.subset,
        lines,
        ranks: mask(&rows, lines),
        edition,
    };
    let count = found(book, held, sets, d, p, q, &rows, extent, hits);
    in_order(book, held, sets, d, p, query, hits, count);
    let open = may_entry(sets, b, DISCLOSE_ON_ERROR);
    returned(operation::SEARCH, sought.missing, open, query.limit, count)
}
