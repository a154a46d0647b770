// Which item decides: precedence, then the rank of its user, then explicitness as one weight; and the weight with what it grants
// as one score.
#![tactic(auto)]

ghost use Rattle.std.specs.Prelude.{◌≡◌, ◌≤◌};
ghost use Rattle.permission_weight.specs.Weight.{rank_of, explicit_of, weight_of, score_of};

use rules::what::{ONE_TYPE, ONE_VALUE};
use rules::who::ENTRY_ITSELF;

// "Named or the entry itself, then at or below a name, then all users".
fn rank(who: u64) -> u64
    ensures { result ≡ rank_of who }
{
    if ENTRY_ITSELF <= who {
        return 2;
    }
    who
}

// "Names the type or the value explicitly".
fn explicit(what: u64) -> u64
    ensures { result ≡ explicit_of what }
{
    if what == ONE_TYPE {
        return 1;
    }
    if what == ONE_VALUE {
        return 1;
    }
    0
}

// Precedence, then rank, then explicitness as one number.
pub fn weight(precedence: u64, who: u64, what: u64) -> u64
    requires { precedence ≤ 255 }
    ensures { result ≡ weight_of precedence who what }
{
    (precedence * 3 + rank(who)) * 2 + explicit(what)
}

// The weight, and within a weight a denial before a grant: the greatest score decides, and an even one grants.
pub fn score(weight: u64, grants: u64) -> u64
    requires { weight ≤ 65535 }
    ensures { result ≡ score_of weight grants }
{
    if grants == 1 {
        return weight * 2 + 2;
    }
    weight * 2 + 3
}
