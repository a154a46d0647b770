// The items, each entered in the row that its reach names.
ghost use Rattle.std.specs.Prelude.{◌≡◌, ℕ, ◌≤◌, ◌<◌, length, get_or};
ghost use Rattle.access_covers.specs.Enter.{reach_entered, all_entered};

use access_items::mark::mark;
use tables::sets::{BELOW, SETS};

// The reach of entry 256, the last, and all below.
const LAST_REACH: usize = 514;

// The item at place `p`, whose reach is `r`: with its entry alone, or with all below it. With the root alone nothing is reached.
fn enter(sets: &mut [u64; SETS], r: usize, p: usize)
    requires { p < 256 }
    ensures { sets.new ≡ reach_entered r p sets.old }
{
    if r < 2 {
        return;
    }
    if LAST_REACH < r {
        return;
    }
    if r % 2 == 1 {
        mark(sets, r / 2, p, 1);
        return;
    }
    mark(sets, BELOW + r / 2 - 1, p, 1);
}

// All items, by their places in the order.
pub fn enter_all(reach: &[usize; 256], order: &[usize], sets: &mut [u64; SETS])
    requires { (length order.now ≤ 256) × ((p : ℕ) → p < length order.now → get_or order.now p 0 < 256) }
    ensures { sets.new ≡ all_entered reach.now order.now (length order.now) sets.old }
{
    for p in 0..order.len() {
        enter(sets, reach[order[p]], p);
    }
}
