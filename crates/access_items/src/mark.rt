// One member of a set in a row of the table: a load and a store of one word.
ghost use Rattle.std.specs.Prelude.{◌≡◌, ◌<◌};
ghost use Rattle.tables.specs.Sets.{set_rows};
ghost use Rattle.access_items.specs.Mark.{marked};

use tables::sets::SETS;

// The item at `place` enters the set in `row` if `bit` is 1.
pub fn mark(sets: &mut [u64; SETS], row: usize, place: usize, bit: u64)
    requires { (row < set_rows) × (place < 256) × (bit < 2) }
    ensures { sets.new ≡ marked sets.old row place bit }
{
    let at = row * 4 + place / 64;
    sets[at] = sets[at] | (bit << (place % 64));
}
