// One line of an answer, written only where it fits. A run over an empty part of the buffer tells the length of an answer; a run over the whole buffer
// writes it.
#![tactic(auto)]

ghost use Rattle.std.specs.Prelude.{◌+◌, ◌≤◌, [], ◌∷◌, length};
ghost use Rattle.rules.specs.Sheet.{line};
ghost use Rattle.sheet_kind.specs.Kinds.{number_of};
ghost use Rattle.answer_line.specs.Emit.{Emits};
ghost use Rattle.answer_line.specs.Room.{answer_room};

use sheet_kind::Kind;

// One line from `at` on where it fits, else nothing; the place after it in either case.
pub fn emit(
    out: &mut [u8],
    at: usize,
    w: usize,
    kind: Kind,
    a: u64,
    b: u64,
    c: u64,
    bytes: &[u8],
) -> usize
    requires { (1 ≤ w) × (w ≤ 18) × (at + length bytes.now ≤ answer_room) }
    ensures { Emits w out.old at (line (number_of kind) a b c bytes.now ∷ []) out.new result }
{
    let end = at + sheet_write::size(w, bytes.len());
    if out.len() < end {
        return end;
    }
    sheet_write::put_line(out, at, w, kind, a, b, c, bytes)
}
