// The lines of a sheet in columns of another width: how many bytes they take, and the bytes.
ghost use Rattle.std.specs.Prelude.{◌≡◌, ◌≤◌, length};
ghost use Rattle.rules.specs.Derived.{put_at};
ghost use Rattle.directory_move.specs.Rewritten.{rewritten_from};

use sheet_line::{Taken, bytes, take};
use sheet_write::{put_numbered, size};

// How many bytes the lines of width `w` take in the width `v`. The walk is that of `rewritten`: one walk to which each hands what it does at a line would be
// longer than the two.
pub(crate) fn measured(s: &[u8], w: usize, v: usize) -> usize
    requires { (w ≤ 18) × (v ≤ 18) × (length s.now ≤ 65536) }
    ensures { result ≡ length (rewritten_from w v s.now 0) }
{
    let mut n: usize = 0;
    let mut at: usize = 0;
    loop {
        match take(s, at, w) {
            Taken::Line(line) => {
                n += size(v, line.length);
                at = line.next;
            }
            Taken::NotInForm => return n,
            Taken::End => return n,
        }
    }
}

// The lines of width `w` written in the width `v`. Not one function with `measured`: with a closure that writes it would be longer than both.
pub(crate) fn rewritten(s: &[u8], w: usize, v: usize, out: &mut [u8])
    requires { (w ≤ 18) × (1 ≤ v) × (v ≤ 18) × (length (rewritten_from w v s.now 0) ≤ length out.old) }
    ensures { out.new ≡ put_at out.old 0 (rewritten_from w v s.now 0) }
{
    let mut to: usize = 0;
    let mut at: usize = 0;
    loop {
        match take(s, at, w) {
            Taken::Line(line) => {
                to = put_numbered(
                    out,
                    to,
                    v,
                    line.kind,
                    line.a,
                    line.b,
                    line.c,
                    bytes(s, line),
                );
                at = line.next;
            }
            Taken::NotInForm => return,
            Taken::End => return,
        }
    }
}
