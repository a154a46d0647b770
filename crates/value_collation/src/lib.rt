// Values compared byte by byte, text without case: the beginning that two of them share, and their order.
#![tactic(auto)]

ghost use Rattle.std.specs.Prelude.{◌≡◌, ◌+◌, ◌≤◌, min, eqb, length, get_or};
ghost use Rattle.rules.specs.Value.{folded, order_bytes};
ghost use Rattle.rules.specs.Value as Value;
ghost use Rattle.value_collation.specs.Compare as Compare;
ghost use Rattle.value_collation.specs.Fold as Fold;

use std::cmp::Ordering;

// The syntaxes, by their numbers in K 1.
pub const OCTETS: u64 = 0;

pub const TEXT: u64 = 1;

pub const INTEGER: u64 = 2;

// A capital letter's small letter; any other byte itself.
#[tactic(auto, unfolding(rules::specs::Value::small))]
pub fn small(b: u8) -> u8
    ensures { result ≡ Value.small b }
{
    if 65 <= b {
        if b <= 90 {
            return b + 32;
        }
    }
    b
}

// A byte as the syntax compares it.
#[tactic(auto, unfolding(crate::specs::Fold::fold))]
fn folded(syntax: u64, b: u8) -> u8
    ensures { result ≡ Fold.fold syntax b }
{
    if syntax == TEXT {
        return small(b);
    }
    b
}

// Whether two bytes are one to the syntax.
fn alike(syntax: u64, a: u8, b: u8) -> bool
    ensures { result ≡ eqb (Fold.fold syntax a) (Fold.fold syntax b) }
{
    if a == b {
        return true;
    }
    folded(syntax, a) == folded(syntax, b)
}

// Whether four bytes are identical: one comparison for the machine.
fn four(v: &[u8], w: &[u8], i: usize) -> bool
    requires { (i + 4 ≤ length v.now) × (i + 4 ≤ length w.now) }
    ensures { result ≡ Fold.four (λ k. eqb (get_or v.now k 0) (get_or w.now k 0)) i }
{
    ((v[i] == w[i]) & (v[i + 1] == w[i + 1])) & ((v[i + 2] == w[i + 2]) & (v[i + 3] == w[i + 3]))
}

// A part of the beginning that two values share, by four bytes at a time; `n` is the shorter one's length.
fn leap(syntax: u64, v: &[u8], w: &[u8], n: usize) -> usize
    requires { n ≡ min (length v.now) (length w.now) }
    ensures { Compare.Shared (folded syntax v.now) (folded syntax w.now) n result }
{
    for q in 0..n / 4 {
        if !four(v, w, 4 * q) {
            return 4 * q;
        }
    }
    n / 4 * 4
}

// How many bytes two values share at their beginning.
pub fn common(syntax: u64, v: &[u8], w: &[u8]) -> usize
    ensures { result ≡ Compare.common (folded syntax v.now) (folded syntax w.now) }
{
    let n = v.len().min(w.len());
    for i in leap(syntax, v, w, n)..n {
        if !alike(syntax, v[i], w[i]) {
            return i;
        }
    }
    n
}

// The order by bytes, by what stands after the beginning that the values share.
pub fn order_after(syntax: u64, v: &[u8], w: &[u8]) -> Ordering
    ensures { result ≡ order_bytes (folded syntax v.now) (folded syntax w.now) }
{
    let i = common(syntax, v, w);
    if i == v.len() {
        if i == w.len() {
            return Ordering::Equal;
        }
        return Ordering::Less;
    }
    if i == w.len() {
        return Ordering::Greater;
    }
    if folded(syntax, v[i]) < folded(syntax, w[i]) {
        return Ordering::Less;
    }
    Ordering::Greater
}

// The order by bytes, a prefix first; mostly the first bytes tell it.
pub fn order_bytes(syntax: u64, v: &[u8], w: &[u8]) -> Ordering
    ensures { result ≡ order_bytes (folded syntax v.now) (folded syntax w.now) }
{
    if 0 < v.len() {
        if 0 < w.len() {
            let a = folded(syntax, v[0]);
            let b = folded(syntax, w[0]);
            if a < b {
                return Ordering::Less;
            }
            if b < a {
                return Ordering::Greater;
            }
        }
    }
    order_after(syntax, v, w)
}
