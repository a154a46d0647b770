// The items of a permission sheet as sets: their numbers in order of weight, and for each test of an item the set of those that pass it.
// A question is then answered by the first member of an intersection.
#![tactic(auto)]

pub mod mark;
mod note;

ghost use Rattle.std.specs.Prelude.{◌≡◌, ◌++◌, ◌≤◌, length, drop};
ghost use Rattle.name.specs.Schema.{Rising};
ghost use Rattle.access_items.specs.Rank.{weight_order};
ghost use Rattle.access_items.specs.Note.{Rows, items_noted};

use permission_sheet::{ALL_RIGHTS, RIGHTS, SCORE};
use tables::sets::SETS;

// The numbers of the items in order of weight, to the front of `order`.
pub fn rank_items(rights: &[u64; ALL_RIGHTS], count: usize, order: &mut [usize; 256])
    requires { (length order.old ≡ 256) × (count ≤ 256) }
    ensures { order.new ≡ weight_order rights.now count ++ drop count order.old }
{
    let mut keys: [u64; 256] = [0; 256];
    for k in 0..count {
        keys[k] = rights[k * RIGHTS + SCORE];
    }
    access_order::sort(&keys[0..count], order);
}

// The sets of the items, and the numbers of their values, into the table.
pub fn note_items(
    rights: &[u64; ALL_RIGHTS],
    schema: &[u64],
    order: &[usize],
    sets: &mut [u64; SETS],
)
    requires { Rising 0 schema.now × (length schema.now ≤ 64) × (length order.now ≤ 256) × Rows rights.now order.now }
    ensures { sets.new ≡ items_noted rights.now schema.now order.now (length order.now) sets.old }
{
    for j in 0..order.len() {
        note::note_item(rights, order[j] * RIGHTS, schema, j, sets);
    }
}
