// What is returned of an entry: each of its types that is selected and may be read and, if values are wanted, its values that may be read.
#![tactic(auto)]

mod values;

ghost use Rattle.std.specs.Prelude.{◌≡◌, ℕ, ◌+◌, ◌-◌, ◌*◌, ◌≤◌, ◌<◌, List, length};
ghost use Rattle.rules.specs.Sheet.{Bytes};
ghost use Rattle.rules.specs.Directory.{Stored, name_at};
ghost use Rattle.rules.specs.Decision.{Setting};
ghost use Rattle.rules.specs.Request.{Selection};
ghost use Rattle.tables.specs.Book.{width, entry_count};
ghost use Rattle.tables.specs.Book as Book;
ghost use Rattle.tables.specs.Held.{ROWS, type_at};
ghost use Rattle.tables.specs.World.{World, Known};
ghost use Rattle.answer_line.specs.Emit.{Emits};
ghost use Rattle.answer_line.specs.Room.{answer_room, line_room, information_room};
ghost use Rattle.tables.specs.Plan.{information_at};
ghost use Rattle.tables.specs.Choice.{Chooses, KnownChoice, KnownChoiceAt};
ghost use Rattle.answer_information.specs.Information as Information;
ghost use Rattle.answer_information.specs.Information.{EndsAt, RunOf, held_by, returned};

use access_may::may_type;
use answer_line::emit;
use sheet_kind::Kind;
use tables::book::{BOOK, FIRST, SCHEMA, WIDTH};
use tables::held::HELD;
use tables::plan::{Choice, chosen};
use tables::sets::{READ, SETS};
use values::emit_readable;

// Values of one type, which stand together: the type's rank, the row of the first and the row after the last.
#[derive(Clone, Copy)]
pub struct Run {
    pub rank: usize,
    pub first: usize,
    pub end: usize,
}

// Is it selected, with Read on it in entry number `e`?
fn shown(sets: &[u64; SETS], choice: Choice, e: usize, rank: usize) -> bool
    requires { (1 ≤ e) × KnownChoiceAt sets.now e rank choice }
    ensures { (σ : Setting) (es : List Stored) (d p : Bytes) (book held : List ℕ) (s : Selection) → World σ es d p book held sets.now → Chooses (Book.schema book) s choice → e ≤ length es → rank < length (Book.schema book) → result ≡ Information.shown_type σ s (name_at es e) (type_at (Book.schema book) rank) }
{
    if chosen(choice, rank) {
        return may_type(sets, e, rank, READ);
    }
    false
}

// The lines of a run of entry number `e`: none unless its type is selected and may be read.
fn emit_run(
    out: &mut [u8],
    at: usize,
    book: &[u64; BOOK],
    held: &[u64; HELD],
    sets: &[u64; SETS],
    d: &[u8],
    p: &[u8],
    choice: Choice,
    e: usize,
    run: Run,
) -> usize
    requires { Known d.now p.now book.now held.now sets.now × RunOf book.now e run × (at + (run.end - run.first + 1) * line_room ≤ answer_room) × KnownChoice (Book.schema book.now) choice }
    ensures { (result ≤ at + (run.end - run.first + 1) * line_room) × ((σ : Setting) (es : List Stored) (s : Selection) → World σ es d.now p.now book.now held.now sets.now → Chooses (Book.schema book.now) s choice → Emits (width book.now) out.old at (returned σ s (name_at es e) (held_by d.now book.now held.now run)) out.new result) }
{
    if shown(sets, choice, e, run.rank) {
        if choice.values {
            return emit_readable(out, at, book, held, sets, d, p, e, run);
        }
        let w = book[WIDTH] as usize;
        let rank = run.rank;
        return emit(
            out,
            at,
            w,
            Kind::ReturnedType,
            book[SCHEMA + rank] / 4,
            0,
            0,
            b"",
        );
    }
    at
}

// The row after those that have the rank of row `i`, of the rows before `end`.
fn run_end(held: &[u64; HELD], i: usize, end: usize) -> usize
    requires { (i < end) × (end ≤ ROWS) }
    ensures { EndsAt held.now i end result }
{
    (i + 1..end).find(|j| held[*j] != held[i]).unwrap_or(end)
}

// What is returned of entry number `e`, which is not the root.
fn emit_runs(
    out: &mut [u8],
    at: usize,
    book: &[u64; BOOK],
    held: &[u64; HELD],
    sets: &[u64; SETS],
    d: &[u8],
    p: &[u8],
    choice: Choice,
    e: usize,
) -> usize
    requires { Known d.now p.now book.now held.now sets.now × (1 ≤ e) × (e ≤ entry_count book.now) × (at + information_room ≤ answer_room) × KnownChoice (Book.schema book.now) choice }
    ensures { (result ≤ at + information_room) × ((σ : Setting) (es : List Stored) (s : Selection) → World σ es d.now p.now book.now held.now sets.now → Chooses (Book.schema book.now) s choice → Emits (width book.now) out.old at (information_at σ es s e) out.new result) }
{
    let end = book[FIRST + e] as usize;
    let mut i = book[FIRST + (e - 1)] as usize;
    let mut next = at;
    // A 'while': it goes from run to run, each as long as it is.
    while i < end {
        let run = Run {
            rank: held[i] as usize,
            first: i,
            end: run_end(held, i, end),
        };
        next = emit_run(out, next, book, held, sets, d, p, choice, e, run);
        i = run.end;
    }
    next
}

// What is returned of entry number `e`; of the root, 0, nothing.
pub fn emit_information(
    out: &mut [u8],
    at: usize,
    book: &[u64; BOOK],
    held: &[u64; HELD],
    sets: &[u64; SETS],
    d: &[u8],
    p: &[u8],
    choice: Choice,
    e: usize,
) -> usize
    requires { Known d.now p.now book.now held.now sets.now × (e ≤ entry_count book.now) × (at + information_room ≤ answer_room) × KnownChoice (Book.schema book.now) choice }
    ensures { (result ≤ at + information_room) × ((σ : Setting) (es : List Stored) (s : Selection) → World σ es d.now p.now book.now held.now sets.now → Chooses (Book.schema book.now) s choice → Emits (width book.now) out.old at (information_at σ es s e) out.new result) }
{
    if e == 0 {
        return at;
    }
    emit_runs(out, at, book, held, sets, d, p, choice, e)
}
