// The book: where each number stands, its columns as parts, and the naming value of an entry.
ghost use Rattle.std.specs.Prelude.{◌≡◌, ◌+◌, ◌≤◌, ◌<◌, length};
ghost use Rattle.tables.specs.Book as Book;
ghost use Rattle.tables.specs.Book.{BookFits, naming_place, length_at, naming_of};

// One number each: the bytes of a column on the sheets; how many types and entries there are.
pub const WIDTH: usize = 0;

pub const TYPES: usize = 1;

pub const ENTRIES: usize = 2;

// 64 numbers: the schema.
pub const SCHEMA: usize = 8;

// 256 numbers each, of the entries: where the naming value's bytes begin, the parent's number, the naming type, the length of the naming value.
pub const PLACE: usize = 72;

pub const PARENT: usize = 328;

pub const NAMING: usize = 584;

pub const LENGTH: usize = 840;

// `FIRST_ROWS` numbers: the row of each entry's first value, and the row after the last value.
pub const FIRST: usize = 1096;

pub const FIRST_ROWS: usize = 257;

// 256 numbers, of the entries: 0, or where the K 9 lines of an alias's target begin, times 16, and how many they are.
pub const TARGET: usize = 1353;

// How many numbers the book has.
pub const BOOK: usize = 1609;

pub fn schema(book: &[u64]) -> &[u64]
    requires { BookFits book.now }
    ensures { result.now ≡ Book.schema book.now }
{
    let n = book[TYPES] as usize;
    &book[SCHEMA..SCHEMA + n]
}

// Not one function with `schema`: with the two places as arguments each call would say what the name says.
pub fn parents(book: &[u64]) -> &[u64]
    requires { BookFits book.now }
    ensures { result.now ≡ Book.parents book.now }
{
    let n = book[ENTRIES] as usize;
    &book[PARENT..PARENT + n]
}

// The bytes of the naming value of the entry of index `k`, as a part of the directory.
pub fn naming_value<'a>(book: &[u64; BOOK], d: &'a [u8], k: usize) -> &'a [u8]
    requires { (k < 256) × (naming_place book.now k + length_at book.now k ≤ length d.now) }
    ensures { result.now ≡ naming_of book.now d.now k }
{
    let place = book[PLACE + k] as usize;
    let end = place + book[LENGTH + k] as usize;
    &d[place..end]
}
