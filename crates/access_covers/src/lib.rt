// The items that cover each entry and fit the requester, for all entries in one pass in directory order; and with them all that the requester may.
#![tactic(auto)]

mod enter;
mod row;

ghost use Rattle.std.specs.Prelude.{◌≡◌, ℕ, ◌≤◌, ◌<◌, length, get_or};
ghost use Rattle.name.specs.Schema.{Rising};
ghost use Rattle.access_items.specs.Note.{Rows};
ghost use Rattle.access_covers.specs.Noted.{covers_noted, rights_noted};

use permission_sheet::ALL_RIGHTS;
use tables::sets::SETS;

// The items that cover each entry, into its row, none into the root's; those that also cover what is below, into the row for that. `reach` says which
// entries each item is for, by its number.
pub fn note_covers(reach: &[usize; 256], order: &[usize], parents: &[u64], sets: &mut [u64; SETS])
    requires { (length order.now ≤ 256) × (length parents.now ≤ 256) × ((p : ℕ) → p < length order.now → get_or order.now p 0 < 256) × ((k : ℕ) → k < length parents.now → get_or parents.now k 0 ≤ k) }
    ensures { sets.new ≡ covers_noted reach.now order.now parents.now sets.old }
{
    enter::enter_all(reach, order, sets);
    for (k, parent) in parents.iter().enumerate() {
        row::inherit(sets, k + 1, *parent as usize);
    }
}

// What the requester may, into the table.
pub fn note_rights(
    rights: &[u64; ALL_RIGHTS],
    schema: &[u64],
    order: &[usize],
    reach: &[usize; 256],
    parents: &[u64],
    sets: &mut [u64; SETS],
)
    requires { Rising 0 schema.now × (length schema.now ≤ 64) × (length order.now ≤ 256) × (length parents.now ≤ 256) × Rows rights.now order.now × ((p : ℕ) → p < length order.now → get_or order.now p 0 < 256) × ((k : ℕ) → k < length parents.now → get_or parents.now k 0 ≤ k) }
    ensures { sets.new ≡ rights_noted rights.now schema.now order.now reach.now parents.now sets.old }
{
    access_items::note_items(rights, schema, order, sets);
    note_covers(reach, order, parents, sets);
}
