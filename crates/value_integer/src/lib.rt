// Integers: decimal digits read into an i64, exact at both ends, and compared.
#![tactic(auto)]

ghost use Rattle.std.specs.Prelude.{◌≡◌, ◌+◌, ◌≤◌, length, drop};
ghost use Rattle.rules.specs.Sheet as Sheet;
ghost use Rattle.rules.specs.Value as Value;
ghost use Rattle.value_integer.specs.Numeral as Numeral;

use std::cmp::Ordering;

// A digit's number; 10 for any other byte.
#[tactic(auto, unfolding(crate::specs::Numeral::digit))]
fn digit(b: u8) -> u64
    ensures { result ≡ Numeral.digit b }
{
    if 48 <= b {
        if b <= 57 {
            return (b - 48) as u64;
        }
    }
    10
}

// The number of at most 19 decimal digits.
fn digits(s: &[u8]) -> Option<u64>
    requires { length s.now ≤ 19 }
    ensures { result ≡ Sheet.digits 0 s.now }
{
    let mut v: u64 = 0;
    for b in s {
        let d = digit(*b);
        if 9 < d {
            return None;
        }
        v = v * 10 + d;
    }
    Some(v)
}

// The numeral from `from` on. One of more than 19 digits is above every integer, and is given as none.
fn number(s: &[u8], from: usize) -> Option<u64>
    requires { from ≤ length s.now }
    ensures { result ≡ Numeral.bounded (drop from s.now) }
{
    let n = s.len() - from;
    if n == 0 {
        return None;
    }
    if 19 < n {
        return None;
    }
    if 1 < n {
        if s[from] == 48 {
            return None;
        }
    }
    digits(&s[from..])
}

// The negative integer of a number, from -1 to -2 ^ 63.
fn negative(c: Option<u64>) -> Option<i64>
    ensures { result ≡ Value.negative c }
{
    match c {
        Some(m) => {
            if m == 0 {
                return None;
            }
            if m < 9223372036854775808 {
                return Some(0 - (m as i64));
            }
            if m == 9223372036854775808 {
                return Some(-9223372036854775808);
            }
            None
        }
        None => None,
    }
}

// The integer of a number, from 0 to 2 ^ 63 - 1.
fn positive(c: Option<u64>) -> Option<i64>
    ensures { result ≡ Value.positive c }
{
    match c {
        Some(m) => {
            if m <= 9223372036854775807 {
                return Some(m as i64);
            }
            None
        }
        None => None,
    }
}

// The integer that a value writes.
pub fn integer(v: &[u8]) -> Option<i64>
    ensures { result ≡ Value.integer_of v.now }
{
    if v.len() == 0 {
        return None;
    }
    if v[0] == 45 {
        return negative(number(v, 1));
    }
    positive(number(v, 0))
}

// The numeric order.
pub fn order_integers(x: Option<i64>, y: Option<i64>) -> Ordering
    ensures { result ≡ Value.order_integers x y }
{
    let Some(a) = x else {
        return Ordering::Equal;
    };
    let Some(b) = y else {
        return Ordering::Equal;
    };
    if a < b {
        return Ordering::Less;
    }
    if b < a {
        return Ordering::Greater;
    }
    Ordering::Equal
}
