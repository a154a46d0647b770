// The columns of a line within their bounds, as a call that leaves no branch in the caller.
ghost use Rattle.std.specs.Prelude.{◌≡◌};
ghost use Rattle.rules.specs.Columns.{form, between};
ghost use Rattle.sheet_form.specs.Columns.{fits_form};

use sheet_line::Line;

// Columns A, B, C and the length of a line, each from its lowest to its highest number.
#[tactic(auto, unfolding(crate::specs::Columns::fits_form))]
pub fn row(
    line: Line,
    a0: u64,
    a1: u64,
    b0: u64,
    b1: u64,
    c0: u64,
    c1: u64,
    len0: usize,
    len1: usize,
) -> bool
    ensures { result ≡ fits_form (form 0 (between a0 a1) (between b0 b1) (between c0 c1) (between len0 len1)) line.a line.b line.c line.length }
{
    if line.a < a0 {
        return false;
    }
    if a1 < line.a {
        return false;
    }
    if line.b < b0 {
        return false;
    }
    if b1 < line.b {
        return false;
    }
    if line.c < c0 {
        return false;
    }
    if c1 < line.c {
        return false;
    }
    if line.length < len0 {
        return false;
    }
    line.length <= len1
}
