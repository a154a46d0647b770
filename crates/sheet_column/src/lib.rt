// A column read: spaces on the left, then a decimal number with no leading zero.
#![tactic(auto)]

ghost use Rattle.std.specs.Prelude.{◌≡◌, true, [], ◌∷◌, ◌+◌, ◌≤◌, ◌<◌, length, take, drop};
ghost use Rattle.rules.specs.Sheet.{strip, digits, column_of};
ghost use Rattle.sheet_column.specs.Coded.{Coded, Spaces};

// The number of spaces on the left of a column.
fn spaces(s: &[u8]) -> usize
    ensures { (result ≤ length s.now) × (drop result s.now ≡ strip s.now) }
{
    for (i, b) in s.iter().enumerate() {
        if *b != 32 {
            return i;
        }
    }
    s.len()
}

// No number: more than any column has. A number, and no `Option`: with that a line took 6 to 19 in 100 longer to read.
pub const NONE: u64 = 18446744073709551615;

// The decimal number that these bytes write, or `NONE`.
fn number(s: &[u8]) -> u64
    requires { length s.now ≤ 18 }
    ensures { Coded (digits 0 s.now) result }
{
    let mut v: u64 = 0;
    for b in s {
        if *b < 48 {
            return NONE;
        }
        if 57 < *b {
            return NONE;
        }
        v = v * 10 + ((*b - 48) as u64);
    }
    v
}

// A column: spaces, then a number with no leading zero; else `NONE`.
fn numeral(s: &[u8]) -> u64
    requires { length s.now ≤ 18 }
    ensures { Coded (column_of s.now) result }
{
    let at = spaces(s);
    if at == s.len() {
        return NONE;
    }
    if s[at] == 48 {
        if at + 1 < s.len() {
            return NONE;
        }
    }
    number(&s[at..])
}

// Whether four bytes are spaces: one comparison of the number that they make.
fn spaces_all(a: u8, b: u8, c: u8, d: u8) -> bool
    ensures { result ≡ true → (a ≡ 32) × (b ≡ 32) × (c ≡ 32) × (d ≡ 32) }
{
    (a as u64) + (b as u64) * 256 + (c as u64) * 65536 + (d as u64) * 16777216 == 538976288
}

// Are the four bytes from `at` on spaces?
fn four_spaces(s: &[u8], at: usize) -> bool
    requires { at + 4 ≤ length s.now }
    ensures { result ≡ true → Spaces s.now at 4 }
{
    spaces_all(s[at], s[at + 1], s[at + 2], s[at + 3])
}

// Two bytes after spaces as a number, where they are a space and a digit, or two digits with no leading zero; else 100, as with `NONE` for speed.
fn pair(t: u8, u: u8) -> u64
    ensures { result < 100 → column_of (t ∷ (u ∷ [])) ≡ Some result }
{
    let x = u as u64;
    if x < 48 {
        return 100;
    }
    if 57 < x {
        return 100;
    }
    if t == 32 {
        return x - 48;
    }
    let y = t as u64;
    if y < 49 {
        return 100;
    }
    if 57 < y {
        return 100;
    }
    y * 10 + x - 528
}

// The column of width `w` that begins at `from`, where it is a number of one digit or two, as in nearly all lines; else 100.
// Four bytes are tested at once, the first of the column and the last before two digits: in six columns these are the same.
pub fn brief(s: &[u8], from: usize, w: usize) -> u64
    requires { (6 ≤ w) × (w ≤ 10) × (from + w ≤ length s.now) }
    ensures { result < 100 → column_of (take w (drop from s.now)) ≡ Some result }
{
    let at = from + w - 2;
    if four_spaces(s, from) {
        if four_spaces(s, at - 4) {
            return pair(s[at], s[at + 1]);
        }
    }
    100
}

// The number of the column of width `w` that begins at `from`, or `NONE`.
pub fn number_at(s: &[u8], from: usize, w: usize) -> u64
    requires { (w ≤ 18) × (from + w ≤ length s.now) }
    ensures { Coded (column_of (take w (drop from s.now))) result }
{
    let end = from + w;
    numeral(&s[from..end])
}

// The column of width `w` that begins at `from`.
pub fn column_at(s: &[u8], from: usize, w: usize) -> Option<u64>
    requires { (w ≤ 18) × (from + w ≤ length s.now) }
    ensures { result ≡ column_of (take w (drop from s.now)) }
{
    let v = number_at(s, from, w);
    if v == NONE {
        return None;
    }
    Some(v)
}
