// The sets of items: where the rows begin, one row, and the slots of a digest.
ghost use Rattle.std.specs.Prelude.{◌≡◌, ◌+◌, ◌*◌, ◌<◌};
ghost use Rattle.tables.specs.Sets.{set_rows, row_of, first_slot, second_slot};

use access_set::Bits;

// Rows: 257 of the entries by their numbers, 257 of what is below each, one of those that grant, 6 of the permissions, 6 by what they are about, 64 by types, twice 32 by slots.
pub const BELOW: usize = 257;

pub const GRANTS: usize = 514;

pub const PERMISSION: usize = 515;

pub const WHAT: usize = 521;

pub const TYPE: usize = 527;

const FIRST_SLOT: usize = 591;

const SECOND_SLOT: usize = 623;

// Numbers, 256 each: the digest, the place and the length of an item's value.
pub const DIGEST: usize = 2620;

pub const PLACE: usize = 2876;

pub const LENGTH: usize = 3132;

// How many numbers the sets have.
pub const SETS: usize = 3388;

// The permissions, by their rows: a permission's number is 2 to the power of its row.
pub const READ: usize = 0;

pub const BROWSE: usize = 1;

pub const RETURN_DN: usize = 2;

pub const DISCLOSE_ON_ERROR: usize = 3;

pub const COMPARE: usize = 4;

pub const FILTER_MATCH: usize = 5;

// The set in row `r`.
pub fn row(sets: &[u64; SETS], r: usize) -> Bits
    requires { r < set_rows }
    ensures { result ≡ row_of sets.now r }
{
    let at = r * 4;
    Bits {
        a: sets[at],
        b: sets[at + 1],
        c: sets[at + 2],
        d: sets[at + 3],
    }
}

// The row of a digest's first slot.
pub fn first_slot(digest: u64) -> usize
    ensures { result ≡ first_slot digest }
{
    FIRST_SLOT + (digest / 2048 % 32) as usize
}

// The row of its second slot.
pub fn second_slot(digest: u64) -> usize
    ensures { result ≡ second_slot digest }
{
    SECOND_SLOT + (digest / 65536 % 32) as usize
}
