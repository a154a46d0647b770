// A value by its syntax: what the syntax allows, equality, order and substrings (document 01, "Values").
#![tactic(auto)]

pub mod digest;
mod text;

ghost use Rattle.std.specs.Prelude.{◌≡◌, ◌≤◌, length, drop};
ghost use Rattle.rules.specs.Value as Value;
ghost use Rattle.rules.specs.Value.{text, folded, normal_piece};

use std::cmp::Ordering;
use value_collation::{INTEGER, OCTETS, TEXT};

// Whether the syntax allows the value.
pub fn fits(syntax: u64, v: &[u8]) -> bool
    ensures { result ≡ Value.fits syntax v.now }
{
    let sized = (1 <= v.len()) & (v.len() <= 64);
    if syntax == OCTETS {
        return sized;
    }
    if syntax == TEXT {
        return sized & text::printable(v);
    }
    let Some(_) = value_integer::integer(v) else {
        return false;
    };
    true
}

// The equality matching rule: whether two values that the syntax allows are equal.
pub fn same(syntax: u64, v: &[u8], w: &[u8]) -> bool
    ensures { result ≡ Value.same syntax v.now w.now }
{
    if syntax == TEXT {
        return value_text::same_text(v, w);
    }
    if v.len() != w.len() {
        return false;
    }
    value_collation::common(syntax, v, w) == v.len()
}

// Whether the syntax has an ordering rule.
#[tactic(auto, unfolding(rules::specs::Value::ordered))]
pub fn ordered(syntax: u64) -> bool
    ensures { result ≡ Value.ordered syntax }
{
    syntax != OCTETS
}

// The ordering rule: how two values that the syntax allows compare.
pub fn order(syntax: u64, v: &[u8], w: &[u8]) -> Ordering
    ensures { result ≡ Value.order syntax v.now w.now }
{
    if syntax == INTEGER {
        return value_integer::order_integers(value_integer::integer(v), value_integer::integer(w));
    }
    if syntax == TEXT {
        return value_text::order_text(v, w);
    }
    value_collation::order_bytes(syntax, v, w)
}

// Whether the syntax has a substrings rule.
#[tactic(auto, unfolding(rules::specs::Value::searchable))]
pub fn searchable(syntax: u64) -> bool
    ensures { result ≡ Value.searchable syntax }
{
    syntax == TEXT
}

// How many bytes of a text are used, from `from` on, up to the end of a piece that has no runs.
fn end_of(v: &[u8], from: usize, place: u64, p: &[u8]) -> Option<usize>
    requires { from ≤ length v.now }
    ensures { result ≡ Value.used place (folded text p.now) (drop from (folded text v.now)) }
{
    if place == 0 {
        if value_substring::stands(v, from, p) {
            return Some(p.len());
        }
        return None;
    }
    if place == 1 {
        return value_substring::any(v, from, p);
    }
    if v.len() - from < p.len() {
        return None;
    }
    if value_substring::stands(v, v.len() - p.len(), p) {
        return Some(v.len() - from);
    }
    None
}

// The substrings rule, a piece at a time: how many bytes of a text without stray blanks are used, from `from` on, up to the piece's end.
// Its place is 0 initial, 1 any, 2 final. Of the piece only the runs are shortened.
pub fn piece_end(v: &[u8], from: usize, place: u64, p: &[u8]) -> Option<usize>
    requires { (from ≤ length v.now) × (length p.now ≤ 64) }
    ensures { result ≡ Value.used place (normal_piece text p.now) (drop from (folded text v.now)) }
{
    if value_blank::run(p) {
        let t = value_blank::shortened(p);
        let n = t.length;
        let bytes = t.bytes;
        return end_of(v, from, place, &bytes[0..n]);
    }
    end_of(v, from, place, p)
}
