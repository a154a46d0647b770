// The pieces of a substrings item, each looked for in what is left of a text from `from` on, without case.
#![tactic(auto)]

ghost use Rattle.std.specs.Prelude.{◌≡◌, not, ◌+◌, ◌≤◌, eqb, length, get_or, drop};
ghost use Rattle.rules.specs.Value.{text, folded, begins, find};
ghost use Rattle.rules.specs.Value as Value;
ghost use Rattle.value_collation.specs.Fold as Fold;
ghost use Rattle.value_substring.specs.Pieces as Pieces;

use value_collation::{TEXT, common, small};

// Whether `p` stands at `at`.
pub fn stands(v: &[u8], at: usize, p: &[u8]) -> bool
    requires { at ≤ length v.now }
    ensures { result ≡ begins (drop at (folded text v.now)) (folded text p.now) }
{
    common(TEXT, &v[at..], p) == p.len()
}

// Whether four bytes are all other than the small letter `b`.
fn absent(v: &[u8], i: usize, b: u8) -> bool
    requires { i + 4 ≤ length v.now }
    ensures { result ≡ Fold.four (λ k. not (eqb (Value.small (get_or v.now k 0)) b)) i }
{
    ((small(v[i]) != b) & (small(v[i + 1]) != b))
        & ((small(v[i + 2]) != b) & (small(v[i + 3]) != b))
}

// Towards the first `b` from `from` on, by four bytes at a time.
fn leap(v: &[u8], from: usize, b: u8) -> usize
    requires { from ≤ length v.now }
    ensures { Pieces.Sought b (folded text v.now) from result }
{
    let n = (v.len() - from) / 4;
    for q in 0..n {
        if !absent(v, from + 4 * q, b) {
            return from + 4 * q;
        }
    }
    from + 4 * n
}

// The first `b` from `from` on, or the end.
fn seek(v: &[u8], from: usize, b: u8) -> usize
    requires { from ≤ length v.now }
    ensures { result ≡ from + Pieces.seek b (drop from (folded text v.now)) }
{
    for i in leap(v, from, b)..v.len() {
        if small(v[i]) == b {
            return i;
        }
    }
    v.len()
}

// A piece anywhere: its first place.
pub fn any(v: &[u8], from: usize, p: &[u8]) -> Option<usize>
    requires { from ≤ length v.now }
    ensures { result ≡ find (folded text p.now) (drop from (folded text v.now)) 0 }
{
    if p.len() == 0 {
        return Some(0);
    }
    if v.len() - from < p.len() {
        return None;
    }
    let b = small(p[0]);
    let mut i = seek(v, from, b);
    // A 'while': it goes from one place of `b` to the next, so a range would not be plainer.
    while p.len() <= v.len() - i {
        if stands(v, i, p) {
            let used = i - from + p.len();
            return Some(used);
        }
        i = seek(v, i + 1, b);
    }
    None
}
