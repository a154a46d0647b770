// The entries of an answer by number, as list, read and search return them.
ghost use Rattle.std.specs.Prelude.{ℕ, ◌+◌, ◌*◌, ◌≤◌, ◌<◌, List, ◌++◌, length, get_or};
ghost use Rattle.rules.specs.Lists.{gather};
ghost use Rattle.rules.specs.Directory.{Stored, name_at};
ghost use Rattle.rules.specs.Decision.{Setting};
ghost use Rattle.rules.specs.Request.{Selection};
ghost use Rattle.rules.specs.Answer.{entry_lines};
ghost use Rattle.tables.specs.Book.{width, entry_count, schema};
ghost use Rattle.tables.specs.World.{Entries, Listed, World, Known};
ghost use Rattle.answer_line.specs.Emit.{Emits};
ghost use Rattle.answer_line.specs.Room.{answer_room, line_room, found_room};
ghost use Rattle.tables.specs.Plan.{child_lines, information_at, found_lines};
ghost use Rattle.tables.specs.Choice.{Chooses, KnownChoice};

use answer_information::emit_information;
use answer_name::{emit_child, emit_entry};
use tables::book::BOOK;
use tables::held::HELD;
use tables::plan::Choice;
use tables::sets::SETS;

// The K 32 lines of the entries with these indices.
pub(crate) fn emit_children(
    out: &mut [u8],
    at: usize,
    book: &[u64; BOOK],
    d: &[u8],
    hits: &[usize],
) -> usize
    requires { Listed d.now book.now × (at + 256 * line_room ≤ answer_room) × (length hits.now ≤ 256) × ((i : ℕ) → i < length hits.now → get_or hits.now i 0 < entry_count book.now) }
    ensures { (σ : Setting) (es : List Stored) (held : List ℕ) → Entries σ es d.now book.now held → Emits (width book.now) out.old at (gather (child_lines es) hits.now) out.new result }
{
    let mut next = at;
    for k in hits {
        next = emit_child(out, next, book, d, *k);
    }
    next
}

// An entry as read and search return it: the full name of entry number `name`, and what is returned of entry number `e`.
pub(crate) fn emit_found(
    out: &mut [u8],
    at: usize,
    book: &[u64; BOOK],
    held: &[u64; HELD],
    sets: &[u64; SETS],
    d: &[u8],
    p: &[u8],
    choice: Choice,
    name: usize,
    e: usize,
) -> usize
    requires { Known d.now p.now book.now held.now sets.now × (at + found_room ≤ answer_room) × (name ≤ entry_count book.now) × (e ≤ entry_count book.now) × KnownChoice (schema book.now) choice }
    ensures { (result ≤ at + found_room) × ((σ : Setting) (es : List Stored) (s : Selection) → World σ es d.now p.now book.now held.now sets.now → Chooses (schema book.now) s choice → Emits (width book.now) out.old at (entry_lines (name_at es name) ++ information_at σ es s e) out.new result) }
{
    let next = emit_entry(out, at, book, d, name);
    emit_information(out, next, book, held, sets, d, p, choice, e)
}

// The entries with these indices as a search returns them. Shared with `emit_children`, the loop would take a closure that writes, and a contract longer than both.
pub(crate) fn emit_matches(
    out: &mut [u8],
    at: usize,
    book: &[u64; BOOK],
    held: &[u64; HELD],
    sets: &[u64; SETS],
    d: &[u8],
    p: &[u8],
    choice: Choice,
    hits: &[usize],
) -> usize
    requires { Known d.now p.now book.now held.now sets.now × (at + 256 * found_room ≤ answer_room) × (length hits.now ≤ 256) × ((i : ℕ) → i < length hits.now → get_or hits.now i 0 < entry_count book.now) × KnownChoice (schema book.now) choice }
    ensures { (σ : Setting) (es : List Stored) (s : Selection) → World σ es d.now p.now book.now held.now sets.now → Chooses (schema book.now) s choice → Emits (width book.now) out.old at (gather (found_lines σ es s) hits.now) out.new result }
{
    let mut next = at;
    for k in hits {
        let e = *k + 1;
        next = emit_found(out, next, book, held, sets, d, p, choice, e, e);
    }
    next
}
