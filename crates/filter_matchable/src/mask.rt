// The ranks of the types that occur in a filter, as the bits of a word: made once for a search.
ghost use Rattle.std.specs.Prelude.{◌≡◌, not, ◌&&◌, ◌≤◌, ◌<◌, ltb};
ghost use Rattle.filter_lines.specs.Lines.{LINES, type_rank};
ghost use Rattle.filter_matchable.specs.Mask.{operator_at, Masks};

use super::matchable::bit_if;
use filter_lines::joins;
use filter_lines::lines::{FILTER, LINE, RANK};
use sheet_kind::{Kind, is};

// Is line `k` an item, of a type with a bit?
fn sought(rows: &[u64; FILTER], k: usize) -> bool
    requires { k < LINES }
    ensures { result ≡ (not (operator_at rows.now k) && ltb (type_rank rows.now k) 64) }
{
    let kind = rows[k * LINE];
    if joins(kind) {
        return false;
    }
    if is(kind, Kind::Not) {
        return false;
    }
    rows[k * LINE + RANK] < 64
}

// The mask of the ranks that occur in the filter. Not one function with `matchable_types`: their loops would share one line, and take a closure for the rest.
pub fn mask(rows: &[u64; FILTER], lines: usize) -> u64
    requires { lines ≤ LINES }
    ensures { Masks rows.now lines result }
{
    let mut x: u64 = 0;
    for k in 0..lines {
        x |= bit_if(sought(rows, k), rows[k * LINE + RANK] as usize);
    }
    x
}
