// Whole rows of the table: what an entry inherits from the one above it.
ghost use Rattle.std.specs.Prelude.{◌≡◌, ◌≤◌, ◌<◌};
ghost use Rattle.tables.specs.Sets.{set_rows};
ghost use Rattle.access_covers.specs.Row.{row_stored, entry_inherited};

use access_set::Bits;
use tables::sets::{BELOW, SETS, row};

// Row `r` becomes `s`.
fn store(sets: &mut [u64; SETS], r: usize, s: Bits)
    requires { r < set_rows }
    ensures { sets.new ≡ row_stored sets.old r s }
{
    let at = r * 4;
    sets[at] = s.a;
    sets[at + 1] = s.b;
    sets[at + 2] = s.c;
    sets[at + 3] = s.d;
}

// Entry `e` inherits from the one above it: the items that also cover what is below that one cover `e` and what is below it.
pub fn inherit(sets: &mut [u64; SETS], e: usize, above: usize)
    requires { (e ≤ 256) × (above < e) }
    ensures { sets.new ≡ entry_inherited e above sets.old }
{
    let s = row(sets, BELOW + e).or(row(sets, BELOW + above));
    let c = row(sets, e).or(s);
    store(sets, BELOW + e, s);
    store(sets, e, c);
}
