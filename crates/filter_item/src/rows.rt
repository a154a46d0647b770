// The rows of an entry's values, gone through for one item: those of the item's rank on whose values FilterMatch is granted are tested, in their
// order, up to the first that passes.
ghost use Rattle.std.specs.Prelude.{◌≡◌, Bool, not, ◌≤◌, ◌<◌, length};
ghost use Rattle.rules.specs.Sheet.{Bytes};
ghost use Rattle.rules.specs.FilterItem.{is_less};
ghost use Rattle.rules.specs.Derived.{reversed};
ghost use Rattle.name.specs.Schema.{equal_by};
ghost use Rattle.tables.specs.Held.{ROWS};
ghost use Rattle.filter_item.specs.Rows.{matchable_at, held_row, some_row, beside_by};
ghost use Rattle.filter_matchable.specs.Matchable.{RowsWithin};

use filter_truth::not_below;
use std::cmp::Ordering;
use tables::held::{HELD, bytes};

// The rows of an entry, and the rank of an item's type.
#[derive(Clone, Copy)]
pub struct RowsSought {
    pub first: usize,
    pub end: usize,
    pub rank: usize,
}

// Is row `i` of the rank that is sought, and FilterMatch granted on its value?
fn matchable_row(held: &[u64; HELD], values: &[u64; 34], sought: RowsSought, i: usize) -> bool
    requires { (sought.first ≤ i) × (i < ROWS) }
    ensures { result ≡ matchable_at held.now values.now sought.first sought.rank i }
{
    if held[i] as usize != sought.rank {
        return false;
    }
    let j = i - sought.first;
    (values[j / 64] >> (j % 64)) % 2 == 1
}

// Is the rank held?
pub(crate) fn holds(held: &[u64; HELD], sought: RowsSought) -> bool
    requires { sought.end ≤ ROWS }
    ensures { result ≡ held_row held.now sought.first sought.end sought.rank }
{
    for i in sought.first..sought.end {
        if held[i] as usize == sought.rank {
            return true;
        }
    }
    false
}

// Does some row count, with a value that passes the test?
pub(crate) fn some_row<F: Fn(&[u8]) -> bool>(
    held: &[u64; HELD],
    values: &[u64; 34],
    d: &[u8],
    sought: RowsSought,
    test: F,
) -> bool
    requires rows { RowsWithin d.now held.now sought.first sought.end }
    requires short { (u : _) → length u.now ≤ 64 → F.pre test u }
    ensures { (p : Bytes → Bool) → ((u : _) (b : Bool) → length u.now ≤ 64 → F.post test u b → b ≡ p u.now) → result ≡ some_row d.now held.now values.now sought.first sought.end sought.rank p }
{
    for i in sought.first..sought.end {
        if matchable_row(held, values, sought, i) && test(bytes(held, d, i)) {
            return true;
        }
    }
    false
}

// Are two values of the syntax `s` allowed and equal? Those that differ are told apart with no further call.
pub(crate) fn equal(s: u64, v: &[u8], u: &[u8]) -> bool
    ensures { result ≡ equal_by s v.now u.now }
{
    if value_syntax::same(s, v, u) {
        return name::equal_by(s, v, u);
    }
    false
}

// Equal or less.
fn not_above(order: Ordering) -> bool
    ensures { result ≡ not (is_less (reversed order)) }
{
    matches!(order, Ordering::Less | Ordering::Equal)
}

// Is `u` not below `v`, or not above it?
fn beside(s: u64, least: bool, v: &[u8], u: &[u8]) -> bool
    ensures { result ≡ beside_by s least v.now u.now }
{
    let order = value_syntax::order(s, u, v);
    if least {
        return not_below(order);
    }
    not_above(order)
}

// Does some row count, with a value not below `v`, or not above it? Both ask here, so that the ordering rule has one caller and is compiled into its loop.
pub(crate) fn some_ordered(
    held: &[u64; HELD],
    values: &[u64; 34],
    d: &[u8],
    sought: RowsSought,
    s: u64,
    least: bool,
    v: &[u8],
) -> bool
    requires { RowsWithin d.now held.now sought.first sought.end }
    ensures { result ≡ some_row d.now held.now values.now sought.first sought.end sought.rank (beside_by s least v.now) }
{
    some_row(held, values, d, sought, |u| beside(s, least, v, u))
}
