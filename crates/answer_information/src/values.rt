// The values of one type of an entry that may be read.
ghost use Rattle.std.specs.Prelude.{ℕ, ◌+◌, ◌-◌, ◌*◌, ◌≤◌, ◌<◌, List, [], ◌∷◌, length};
ghost use Rattle.rules.specs.Sheet.{Bytes};
ghost use Rattle.rules.specs.Directory.{Stored, name_at};
ghost use Rattle.rules.specs.Decision.{Setting};
ghost use Rattle.rules.specs.Answer.{value_lines};
ghost use Rattle.tables.specs.Book.{width, type_count, entry_count, schema};
ghost use Rattle.tables.specs.Held.{ROWS, type_at};
ghost use Rattle.tables.specs.World.{World, Known};
ghost use Rattle.answer_line.specs.Emit.{Emits};
ghost use Rattle.answer_line.specs.Room.{answer_room, line_room};
ghost use Rattle.answer_information.specs.Information.{RunOf, row_values, readable, Counted};

use super::Run;
use access_may::may_value;
use answer_line::emit;
use sheet_kind::Kind;
use sheet_write::size;
use tables::book::{BOOK, SCHEMA, WIDTH};
use tables::held::{HELD, bytes};
use tables::sets::{READ, SETS};

// The place after the values written so far, and how many they are.
#[derive(Drop)]
pub struct Written {
    pub next: usize,
    pub count: u64,
}

// The K 35 line of a value of the type of this rank in entry number `e`, if it may be read.
fn emit_value(
    out: &mut [u8],
    st: Written,
    book: &[u64; BOOK],
    sets: &[u64; SETS],
    p: &[u8],
    e: usize,
    rank: usize,
    v: &[u8],
) -> Written
    requires { ((d : Bytes) × (held : List ℕ) × Known d p.now book.now held sets.now) × (1 ≤ e) × (e ≤ entry_count book.now) × (rank < type_count book.now) × (length v.now ≤ 65536) × (st.next + line_room ≤ answer_room) × (st.count ≤ ROWS) }
    ensures { (result.next ≤ st.next + line_room) × (result.count ≤ st.count + 1) × ((σ : Setting) (es : List Stored) (d : Bytes) (held : List ℕ) → World σ es d p.now book.now held sets.now → Counted (width book.now) out.old st (readable σ (name_at es e) (type_at (schema book.now) rank) (v.now ∷ [])) out.new result) }
{
    if may_value(book, sets, p, e, rank, v, READ) {
        let w = book[WIDTH] as usize;
        return Written {
            next: emit(out, st.next, w, Kind::ReturnedValue, 0, 0, 0, v),
            count: st.count + 1,
        };
    }
    st
}

// The K 35 lines of the values of a run that may be read.
fn emit_values(
    out: &mut [u8],
    at: usize,
    book: &[u64; BOOK],
    held: &[u64; HELD],
    sets: &[u64; SETS],
    d: &[u8],
    p: &[u8],
    e: usize,
    run: Run,
) -> Written
    requires { Known d.now p.now book.now held.now sets.now × RunOf book.now e run × (at + (run.end - run.first) * line_room ≤ answer_room) }
    ensures { (result.next ≤ at + (run.end - run.first) * line_room) × ((σ : Setting) (es : List Stored) → World σ es d.now p.now book.now held.now sets.now → Counted (width book.now) out.old (record { next = at; count = 0 }) (readable σ (name_at es e) (type_at (schema book.now) run.rank) (row_values d.now held.now run.first (run.end - run.first))) out.new result) }
{
    let mut st = Written { next: at, count: 0 };
    for i in run.first..run.end {
        st = emit_value(out, st, book, sets, p, e, run.rank, bytes(held, d, i));
    }
    st
}

// The values of a run that may be read, if there are any: K 34 with their number, written last into the room left for it, so that each value is asked
// about once, and K 35 for each.
pub(crate) fn emit_readable(
    out: &mut [u8],
    at: usize,
    book: &[u64; BOOK],
    held: &[u64; HELD],
    sets: &[u64; SETS],
    d: &[u8],
    p: &[u8],
    e: usize,
    run: Run,
) -> usize
    requires { Known d.now p.now book.now held.now sets.now × RunOf book.now e run × (at + (run.end - run.first + 1) * line_room ≤ answer_room) }
    ensures { (result ≤ at + (run.end - run.first + 1) * line_room) × ((σ : Setting) (es : List Stored) → World σ es d.now p.now book.now held.now sets.now → Emits (width book.now) out.old at (value_lines (type_at (schema book.now) run.rank) (readable σ (name_at es e) (type_at (schema book.now) run.rank) (row_values d.now held.now run.first (run.end - run.first)))) out.new result) }
{
    let w = book[WIDTH] as usize;
    let st = emit_values(out, at + size(w, 0), book, held, sets, d, p, e, run);
    if st.count == 0 {
        return at;
    }
    let rank = run.rank;
    emit(
        out,
        at,
        w,
        Kind::ReturnedType,
        book[SCHEMA + rank] / 4,
        st.count,
        0,
        b"",
    );
    st.next
}
