// A filter's lines, read once and noted by six numbers each; the pieces of its substrings items.
#![tactic(auto)]

pub mod lines;
pub mod pieces;

ghost use Rattle.std.specs.Prelude.{◌≡◌, ◌||◌, eqb};
ghost use Rattle.sheet_kind.specs.Kinds.{number_of};
ghost use Rattle.sheet_kind.specs.declared.Kind.TheVariants.{And, Or};

use sheet_kind::{Kind, is};

// Does a line of this kind join its parts, being "and" or "or"?
pub fn joins(kind: u64) -> bool
    ensures { result ≡ (eqb kind (number_of And) || eqb kind (number_of Or)) }
{
    is(kind, Kind::And) | is(kind, Kind::Or)
}
