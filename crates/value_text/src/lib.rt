// The order of texts of any length, without case and with the blanks that count (#102).
#![tactic(auto)]

ghost use Rattle.std.specs.Prelude.{◌≡◌, ◌≤◌, length};
ghost use Rattle.rules.specs.Value.{text, normal, same, order_bytes};
ghost use Rattle.value_text.specs.Walk as Walk;

use std::cmp::Ordering;
use value_blank::{BLANK, next_at, skip};
use value_collation::{TEXT, common, small};

// The order of two bytes that differ.
fn apart(a: u8, b: u8) -> Ordering
    ensures { result ≡ Walk.apart a b }
{
    if a < b {
        return Ordering::Less;
    }
    Ordering::Greater
}

// The order of a text that has ended and one with this next.
fn ended(next: Option<(u8, usize)>) -> Ordering
    ensures { result ≡ Walk.ended next }
{
    match next {
        Some(_) => Ordering::Less,
        None => Ordering::Equal,
    }
}

// The order of what is left of two texts, byte by byte.
fn order_from(v: &[u8], i: usize, w: &[u8], j: usize) -> Ordering
    requires { (i ≤ length v.now) × (j ≤ length w.now) }
    ensures { result ≡ order_bytes (Walk.left v.now i) (Walk.left w.now j) }
{
    let mut i = i;
    let mut j = j;
    loop {
        let Some((a, k)) = next_at(v, i) else {
            return ended(next_at(w, j));
        };
        let Some((b, l)) = next_at(w, j) else {
            return Ordering::Greater;
        };
        let x = small(a);
        let y = small(b);
        if x != y {
            return apart(x, y);
        }
        i = k;
        j = l;
    }
}

// The order of two texts with stray blanks: a text of nothing but blanks is one blank.
fn order_blanks(v: &[u8], w: &[u8]) -> Ordering
    ensures { result ≡ order_bytes (normal text v.now) (normal text w.now) }
{
    let i = skip(v, 0);
    let j = skip(w, 0);
    if i == v.len() {
        if j == w.len() {
            return Ordering::Equal;
        }
        return apart(BLANK, small(w[j]));
    }
    if j == w.len() {
        return apart(small(v[i]), BLANK);
    }
    order_from(v, i, w, j)
}

// The same, the texts lent on as parts of themselves: so they are not copied where blanks are not looked at.
fn by_blanks(v: &[u8], w: &[u8]) -> Ordering
    ensures { result ≡ order_bytes (normal text v.now) (normal text w.now) }
{
    order_blanks(&v[0..], &w[0..])
}

// The order of two texts: by the bytes after the beginning that they share, where neither is a blank; blanks are looked at only where one is.
fn order_after(v: &[u8], w: &[u8]) -> Ordering
    ensures { result ≡ order_bytes (normal text v.now) (normal text w.now) }
{
    let i = common(TEXT, v, w);
    if i == v.len() {
        if i == w.len() {
            return Ordering::Equal;
        }
        return by_blanks(v, w);
    }
    if i == w.len() {
        return by_blanks(v, w);
    }
    if v[i] == BLANK {
        return by_blanks(v, w);
    }
    if w[i] == BLANK {
        return by_blanks(v, w);
    }
    apart(small(v[i]), small(w[i]))
}

// The order of two texts; mostly the first bytes tell it.
pub fn order_text(v: &[u8], w: &[u8]) -> Ordering
    ensures { result ≡ order_bytes (normal text v.now) (normal text w.now) }
{
    if 0 < v.len() {
        if 0 < w.len() {
            let a = small(v[0]);
            let b = small(w[0]);
            if a != b {
                if a != BLANK {
                    if b != BLANK {
                        return apart(a, b);
                    }
                }
            }
        }
    }
    order_after(v, w)
}

// Equal?
fn equal(order: Ordering) -> bool
    ensures { result ≡ Walk.is_equal order }
{
    matches!(order, Ordering::Equal)
}

// Are two texts equal? Mostly the first bytes tell that they are not. Their test stands here too: with one more caller `order_text` is not compiled into the
// filter's loop, and a worst search takes a quarter more.
pub fn same_text(v: &[u8], w: &[u8]) -> bool
    ensures { result ≡ same text v.now w.now }
{
    if 0 < v.len() {
        if 0 < w.len() {
            let a = small(v[0]);
            let b = small(w[0]);
            if a != b {
                if a != BLANK {
                    if b != BLANK {
                        return false;
                    }
                }
            }
        }
    }
    equal(order_after(v, w))
}
