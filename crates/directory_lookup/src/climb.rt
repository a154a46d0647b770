// Entries below others: from an entry's number up by the numbers of the parents, each below the number before it.
ghost use Rattle.std.specs.Prelude.{◌≡◌, ℕ, ◌≤◌, List};
ghost use Rattle.rules.specs.Sheet.{Bytes};
ghost use Rattle.rules.specs.Directory.{Stored};
ghost use Rattle.rules.specs.Decision.{Setting};
ghost use Rattle.tables.specs.Numbers as Numbers;
ghost use Rattle.tables.specs.Book.{entry_count};
ghost use Rattle.tables.specs.World.{Entries, Listed};

use tables::book::{BOOK, PARENT};

// Is entry number `e` number `b` or below it?
pub fn climbs(book: &[u64; BOOK], b: usize, e: usize) -> bool
    requires { ((d : Bytes) × Listed d book.now) × (e ≤ entry_count book.now) }
    ensures { (σ : Setting) (es : List Stored) (d : Bytes) (held : List ℕ) → Entries σ es d book.now held → result ≡ Numbers.climbs es e b e }
{
    let mut k = e;
    while b < k {
        k = book[PARENT + (k - 1)] as usize;
    }
    k == b
}
