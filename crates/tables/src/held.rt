// The rows of the values held: where the columns begin, and the bytes of a row.
ghost use Rattle.std.specs.Prelude.{◌≡◌, ◌+◌, ◌≤◌, ◌<◌, length};
ghost use Rattle.tables.specs.Held.{ROWS, place_at, size_at, bytes_at};

// 2,115 numbers each: the rank of each row's type, where its bytes begin, how many they are.
pub const RANK: usize = 0;

pub const PLACE: usize = 2115;

pub const SIZE: usize = 4230;

// How many numbers the three columns have.
pub const HELD: usize = 6345;

// The bytes of row `i`, as a part of the directory.
pub fn bytes<'a>(held: &[u64; HELD], d: &'a [u8], i: usize) -> &'a [u8]
    requires { (i < ROWS) × (place_at held.now i + size_at held.now i ≤ length d.now) }
    ensures { result.now ≡ bytes_at d.now held.now i }
{
    let place = held[PLACE + i] as usize;
    let end = place + held[SIZE + i] as usize;
    &d[place..end]
}
