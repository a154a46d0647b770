// What is returned: the answer's length, or why there is none.
#![tactic(auto)]

ghost use Rattle.std.specs.Prelude.{◌≡◌};

// The refusal number, 0 for none, and the number of bytes of the answer.
#[repr(C)]
#[derive(Drop)]
pub struct Reply {
    pub refusal: u64,
    pub length: u64,
}

// A refusal has no bytes.
pub fn refused(number: u64) -> Reply
    ensures { result ≡ record { refusal = number; length = 0 } }
{
    Reply {
        refusal: number,
        length: 0,
    }
}
