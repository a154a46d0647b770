// What a calling program brings with it: the form of its sheets (#109), and what it is limited to (#107).
#![tactic(auto)]

ghost use Rattle.std.specs.Prelude.{◌≡◌, ℕ};
ghost use Rattle.rules.specs.Sheet.{Bytes, format_of, Usable};
ghost use Rattle.rules.specs.Judge.{Grammar};
ghost use Rattle.rules.specs.Request.{Request};
ghost use Rattle.rules.specs.Serve as Serve;
ghost use Rattle.request_sheet.specs.Noted.{RequestNoted};

use request_sheet::Asked;
use rules::{Format, Limits, operation};

// The form that the caller names: nine columns, or six.
pub fn format_of(wide: bool) -> Format
    ensures { (result ≡ format_of wide) × Usable result }
{
    if wide {
        return Format {
            width: 9,
            top: 9999999,
        };
    }
    Format { width: 6, top: 999 }
}

// The exchange has no limits.
pub fn exchange() -> Limits
    ensures { result ≡ Serve.exchange }
{
    Limits {
        entries: 0,
        bytes: 0,
    }
}

// A panel gets at most five entries from a list or search, and lends at most 1,024 bytes.
pub fn panel() -> Limits
    ensures { result ≡ Serve.panel }
{
    Limits {
        entries: 5,
        bytes: 1024,
    }
}

// Is more lent than the program may lend?
pub fn above(limits: Limits, room: usize) -> bool
    ensures { result ≡ Serve.above limits room }
{
    if limits.bytes == 0 {
        return false;
    }
    limits.bytes < room as u64
}

// The smaller of two size limits, of which 0 is none.
fn tighter(a: u64, b: u64) -> u64
    ensures { result ≡ Serve.tighter a b }
{
    if a == 0 {
        return b;
    }
    if b == 0 {
        return a;
    }
    if b < a {
        return b;
    }
    a
}

// What is asked, within the limits: read and compare as they stand, list and search with at most as many entries.
pub fn within(asked: Asked, limits: Limits) -> Asked
    requires { (G : Grammar) × (w : ℕ) × (q : Bytes) × (x : Request) × RequestNoted G w q x asked }
    ensures { (G : Grammar) (w : ℕ) (q : Bytes) (x : Request) → RequestNoted G w q x asked → RequestNoted G w q (Serve.within limits x) result }
{
    if asked.operation < operation::LIST {
        return asked;
    }
    let mut next = asked;
    next.limit = tighter(limits.entries, asked.limit);
    next
}
