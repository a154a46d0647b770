// A line written into a lent buffer, and its size. Nothing but the line's own bytes changes.
#![tactic(auto)]

ghost use Rattle.std.specs.Prelude.{◌≡◌, ◌+◌, ◌*◌, ◌≤◌, ◌<◌, length};
ghost use Rattle.rules.specs.Sheet.{line, line_size, leading, column, numbers, line_bytes};
ghost use Rattle.rules.specs.Derived.{put_at};
ghost use Rattle.sheet_kind.specs.Kinds.{number_of};

use sheet_kind::{Kind, number_of};

// Spaces in the four bytes from `at` on.
fn four_spaces(out: &mut [u8], at: usize)
    requires { at + 4 ≤ length out.old }
    ensures { out.new ≡ put_at out.old at (leading 4 0) }
{
    out[at + 3] = 32;
    out[at + 2] = 32;
    out[at + 1] = 32;
    out[at] = 32;
}

// Spaces in the `w` bytes from `at` on, one by one: for so few a call of the library's `fill` takes longer.
fn single_spaces(out: &mut [u8], at: usize, w: usize)
    requires { at + w ≤ length out.old }
    ensures { out.new ≡ put_at out.old at (leading w 0) }
{
    for i in (0..w).rev() {
        out[at + i] = 32;
    }
}

// Spaces in the `w` bytes from `at` on. In columns of six bytes most often five or four are due.
fn put_spaces(out: &mut [u8], at: usize, w: usize)
    requires { at + w ≤ length out.old }
    ensures { out.new ≡ put_at out.old at (leading w 0) }
{
    if w == 5 {
        out[at + 4] = 32;
        four_spaces(out, at);
        return;
    }
    if w == 4 {
        four_spaces(out, at);
        return;
    }
    single_spaces(out, at, w)
}

// The digits of `n` in the `w` bytes from `at` on, written from the right; spaces where none is left.
fn put_leading(out: &mut [u8], at: usize, w: usize, n: u64)
    requires { at + w ≤ length out.old }
    ensures { out.new ≡ put_at out.old at (leading w n) }
{
    let mut v = n;
    for i in (0..w).rev() {
        if v == 0 {
            put_spaces(out, at, i + 1);
            return;
        }
        out[at + i] = 48 + ((v % 10) as u8);
        v = v / 10;
    }
}

// `n` right-justified in the `w` bytes from `at` on.
fn put_column(out: &mut [u8], at: usize, w: usize, n: u64)
    requires { (1 ≤ w) × (at + w ≤ length out.old) }
    ensures { out.new ≡ put_at out.old at (column w n) }
{
    let i = w - 1;
    out[at + i] = 48 + ((n % 10) as u8);
    put_leading(out, at, i, n / 10);
}

// `src` from `at` on, byte by byte: most values are short, and a call of the library's `copy_from_slice` takes longer.
fn put(out: &mut [u8], at: usize, src: &[u8])
    requires { at + length src.now ≤ length out.old }
    ensures { out.new ≡ put_at out.old at src.now }
{
    for (i, byte) in src.iter().enumerate() {
        out[at + i] = *byte;
    }
}

// The five columns of a line; the position after them is returned.
fn put_numbers(out: &mut [u8], at: usize, w: usize, k: u64, a: u64, b: u64, c: u64, l: u64) -> usize
    requires { (1 ≤ w) × (at + 5 * w ≤ length out.old) }
    ensures { (result ≡ at + 5 * w) × (out.new ≡ put_at out.old at (numbers w k a b c l)) }
{
    put_column(out, at, w, k);
    put_column(out, at + w, w, a);
    put_column(out, at + 2 * w, w, b);
    put_column(out, at + 3 * w, w, c);
    put_column(out, at + 4 * w, w, l);
    at + 5 * w
}

// How many bytes a line of `n` bytes takes.
pub fn size(w: usize, n: usize) -> usize
    requires { line_size w n < 18446744073709551616 }
    ensures { result ≡ line_size w n }
{
    5 * w + 1 + n
}

// The line of these numbers and bytes from `at` on; the position after it is returned.
pub fn put_numbered(
    out: &mut [u8],
    at: usize,
    w: usize,
    k: u64,
    a: u64,
    b: u64,
    c: u64,
    bytes: &[u8],
) -> usize
    requires { (1 ≤ w) × (at + line_size w (length bytes.now) ≤ length out.old) }
    ensures next { result ≡ at + line_size w (length bytes.now) }
    ensures written { out.new ≡ put_at out.old at (line_bytes w (line k a b c bytes.now)) }
{
    let from = put_numbers(out, at, w, k, a, b, c, bytes.len() as u64);
    put(out, from, bytes);
    let end = from + bytes.len();
    out[end] = 10;
    end + 1
}

// The line of this kind, these numbers and bytes.
pub fn put_line(
    out: &mut [u8],
    at: usize,
    w: usize,
    kind: Kind,
    a: u64,
    b: u64,
    c: u64,
    bytes: &[u8],
) -> usize
    requires { (1 ≤ w) × (at + line_size w (length bytes.now) ≤ length out.old) }
    ensures next { result ≡ at + line_size w (length bytes.now) }
    ensures written { out.new ≡ put_at out.old at (line_bytes w (line (number_of kind) a b c bytes.now)) }
{
    put_numbered(out, at, w, number_of(kind), a, b, c, bytes)
}
