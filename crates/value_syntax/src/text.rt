// The bytes that text may have.
ghost use Rattle.std.specs.Prelude.{◌≡◌, ◌&&◌, fold, true};
ghost use Rattle.rules.specs.Value as Value;

// Is the byte one of 32 to 126?
#[tactic(auto, unfolding(rules::specs::Value::printable))]
fn visible(b: u8) -> bool
    ensures { result ≡ Value.printable b }
{
    (32 <= b) & (b <= 126)
}

// Whether all bytes are: no branch in the loop, so that many are looked at in one step.
pub(crate) fn printable(v: &[u8]) -> bool
    ensures { result ≡ fold (λ t b. t && Value.printable b) true v.now }
{
    v.iter().fold(true, |all, b| all & visible(*b))
}
