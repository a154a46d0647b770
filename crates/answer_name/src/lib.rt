// Names in an answer, from the numbers of the book: an entry's naming part, and the parts of its full name. Entries have indices from 0 and numbers from 1;
// 0 is the number of the root.
#![tactic(auto)]

ghost use Rattle.std.specs.Prelude.{◌≡◌, ℕ, ◌+◌, ◌*◌, ◌≤◌, ◌<◌, List, [], ◌∷◌, length, get_or};
ghost use Rattle.rules.specs.Sheet.{Bytes, bit};
ghost use Rattle.rules.specs.Directory.{Stored, blank, name_at, is_alias};
ghost use Rattle.rules.specs.Decision.{Setting};
ghost use Rattle.rules.specs.Judge.{name_lines};
ghost use Rattle.rules.specs.Answer.{entry_lines};
ghost use Rattle.sheet_kind.specs.Kinds.{number_of};
ghost use Rattle.sheet_kind.specs.declared.Kind.TheVariants.{Child};
ghost use Rattle.tables.specs.Book.{width, entry_count};
ghost use Rattle.tables.specs.World.{Entries, Listed};
ghost use Rattle.answer_line.specs.Emit.{Emits};
ghost use Rattle.answer_line.specs.Room.{answer_room, line_room, name_room};
ghost use Rattle.answer_name.specs.Name.{naming_line};

use answer_line::emit;
use sheet_kind::Kind;
use tables::book::{BOOK, NAMING, PARENT, TARGET, WIDTH, naming_value};

// A line of a kind with the naming part of the entry of index `k`, its bytes a part of the directory `d`; `c` is its column C.
fn emit_part(
    out: &mut [u8],
    at: usize,
    book: &[u64; BOOK],
    d: &[u8],
    k: usize,
    kind: Kind,
    c: u64,
) -> usize
    requires { Listed d.now book.now × (at + line_room ≤ answer_room) × (k < entry_count book.now) }
    ensures { (result ≤ at + line_room) × ((σ : Setting) (es : List Stored) (held : List ℕ) → Entries σ es d.now book.now held → Emits (width book.now) out.old at (naming_line (number_of kind) c (get_or es k blank) ∷ []) out.new result) }
{
    let w = book[WIDTH] as usize;
    emit(
        out,
        at,
        w,
        kind,
        book[NAMING + k],
        0,
        c,
        naming_value(book, d, k),
    )
}

// The mark of the entry of index `k`: 1 for an alias.
fn mark(book: &[u64; BOOK], k: usize) -> u64
    requires { (k < entry_count book.now) × (entry_count book.now ≤ 256) }
    ensures { (σ : Setting) (es : List Stored) (d : Bytes) (held : List ℕ) → Entries σ es d book.now held → result ≡ bit (is_alias (get_or es k blank).target) }
{
    u64::from(book[TARGET + k] != 0)
}

// The K 32 line of the entry of index `k`: its naming part, and the mark of an alias.
pub fn emit_child(out: &mut [u8], at: usize, book: &[u64; BOOK], d: &[u8], k: usize) -> usize
    requires { Listed d.now book.now × (at + line_room ≤ answer_room) × (k < entry_count book.now) }
    ensures { (result ≤ at + line_room) × ((σ : Setting) (es : List Stored) (held : List ℕ) → Entries σ es d.now book.now held → Emits (width book.now) out.old at (naming_line (number_of Child) (bit (is_alias (get_or es k blank).target)) (get_or es k blank) ∷ []) out.new result) }
{
    let c = mark(book, k);
    emit_part(out, at, book, d, k, Kind::Child, c)
}

// The number of parts of the name of entry number `e`: its ancestors and itself.
pub fn depth(book: &[u64; BOOK], e: usize) -> usize
    requires { ((d : Bytes) × Listed d book.now) × (e ≤ entry_count book.now) }
    ensures { (σ : Setting) (es : List Stored) (d : Bytes) (held : List ℕ) → Entries σ es d book.now held → result ≡ length (name_at es e) }
{
    let mut n: usize = 0;
    let mut j = e;
    // A 'while': it climbs from parent to parent, whose numbers are no range.
    while 0 < j {
        j = book[PARENT + (j - 1)] as usize;
        n += 1;
    }
    n
}

// The K 9 lines of the full name of entry number `e`, from depth 1 down; the root has none.
pub fn emit_name(out: &mut [u8], at: usize, book: &[u64; BOOK], d: &[u8], e: usize) -> usize
    requires { Listed d.now book.now × (at + e * line_room ≤ answer_room) × (e ≤ entry_count book.now) }
    ensures { (result ≤ at + e * line_room) × ((σ : Setting) (es : List Stored) (held : List ℕ) → Entries σ es d.now book.now held → Emits (width book.now) out.old at (name_lines (name_at es e)) out.new result) }
{
    if e == 0 {
        return at;
    }
    let k = e - 1;
    let next = emit_name(out, at, book, d, book[PARENT + k] as usize);
    emit_part(out, next, book, d, k, Kind::NamePart, 0)
}

// The K 33 line of entry number `e`, with the number of parts of its full name, and the name.
pub fn emit_entry(out: &mut [u8], at: usize, book: &[u64; BOOK], d: &[u8], e: usize) -> usize
    requires { Listed d.now book.now × (at + name_room ≤ answer_room) × (e ≤ entry_count book.now) }
    ensures { (result ≤ at + name_room) × ((σ : Setting) (es : List Stored) (held : List ℕ) → Entries σ es d.now book.now held → Emits (width book.now) out.old at (entry_lines (name_at es e)) out.new result) }
{
    let parts = depth(book, e);
    let w = book[WIDTH] as usize;
    let next = emit(out, at, w, Kind::ReturnedEntry, 0, parts as u64, 0, b"");
    emit_name(out, next, book, d, e)
}
