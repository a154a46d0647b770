// The frame of a line: five columns of numbers, then as many bytes as the last one says, then byte 10; what the numbers mean is not asked.
// The line at the front of a sheet's rest is told by it. The width of a column is a parameter of every function.
#![tactic(auto)]

ghost use Rattle.std.specs.Prelude.{◌≡◌, ◌+◌, ◌*◌, ◌≤◌, length, take, drop};
ghost use Rattle.rules.specs.Sheet.{column_of, whole, front_of};
ghost use Rattle.sheet_column.specs.Coded.{Coded};

use rules::Front;
use sheet_column::{NONE, brief, column_at, number_at};

// What stands after five columns with these numbers: `n` bytes, at most 64, then byte 10.
#[tactic(auto, unfolding(rules::specs::Sheet::whole))]
fn framed(s: &[u8], w: usize, kind: u64, a: u64, b: u64, c: u64, n: u64) -> Front
    requires { w ≤ 18 }
    ensures { result ≡ whole w s.now (Some kind) (Some a) (Some b) (Some c) (Some n) }
{
    if 64 < n {
        return Front::NotInForm;
    }
    let length = n as usize;
    let end = 5 * w + length;
    if s.len() <= end {
        return Front::NotInForm;
    }
    if s[end] != 10 {
        return Front::NotInForm;
    }
    Front::Taken {
        kind,
        a,
        b,
        c,
        length,
    }
}

// The line at the front of a sheet's rest, column by column.
fn by_columns(s: &[u8], w: usize) -> Front
    requires { w ≤ 18 }
    ensures { result ≡ front_of w s.now }
{
    if s.len() == 0 {
        return Front::End;
    }
    if s.len() < 5 * w {
        return Front::NotInForm;
    }
    let Some(kind) = column_at(s, 0, w) else {
        return Front::NotInForm;
    };
    let Some(a) = column_at(s, w, w) else {
        return Front::NotInForm;
    };
    let Some(b) = column_at(s, 2 * w, w) else {
        return Front::NotInForm;
    };
    let Some(c) = column_at(s, 3 * w, w) else {
        return Front::NotInForm;
    };
    let Some(n) = column_at(s, 4 * w, w) else {
        return Front::NotInForm;
    };
    framed(s, w, kind, a, b, c, n)
}

// The number of the column of width `w` that begins at `from`, or `NONE`: nearly all have one digit or two.
fn column(s: &[u8], from: usize, w: usize) -> u64
    requires { (6 ≤ w) × (w ≤ 10) × (from + w ≤ length s.now) }
    ensures { Coded (column_of (take w (drop from s.now))) result }
{
    let n = brief(s, from, w);
    if n < 100 {
        return n;
    }
    number_at(s, from, w)
}

// The line at the front, in columns of `W` bytes: a constant to the compiler.
fn front_in<const W: usize>(s: &[u8]) -> Front
    requires { (6 ≤ W) × (W ≤ 10) × (5 * W ≤ length s.now) }
    ensures { result ≡ front_of W s.now }
{
    let kind = column(s, 0, W);
    if kind == NONE {
        return Front::NotInForm;
    }
    let a = column(s, W, W);
    if a == NONE {
        return Front::NotInForm;
    }
    let b = column(s, 2 * W, W);
    if b == NONE {
        return Front::NotInForm;
    }
    let c = column(s, 3 * W, W);
    if c == NONE {
        return Front::NotInForm;
    }
    let n = column(s, 4 * W, W);
    if n == NONE {
        return Front::NotInForm;
    }
    framed(s, W, kind, a, b, c, n)
}

// The line at the front of a sheet's rest. The width of either form is a constant where its lines are read.
pub fn front(s: &[u8], w: usize) -> Front
    requires { w ≤ 18 }
    ensures { result ≡ front_of w s.now }
{
    if w == 6 {
        if 30 <= s.len() {
            return front_in::<6>(s);
        }
    }
    if w == 9 {
        if 45 <= s.len() {
            return front_in::<9>(s);
        }
    }
    by_columns(s, w)
}
