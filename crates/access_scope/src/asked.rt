// Is an item for the requester? The level counts for a grant alone; then the users that the item is for.
ghost use Rattle.std.specs.Prelude.{◌≡◌};
ghost use Rattle.rules.specs.Name as Name;
ghost use Rattle.rules.specs.Places.{schema_of, lines_at, parts_of};
ghost use Rattle.tables.specs.Book.{BookFits, schema, width};
ghost use Rattle.access_scope.specs.Scopes.{level_by, who_by, asked_by};

use super::{Requester, Scope};
use directory_lookup::names::covers;
use rules::who::{ALL_USERS, AT_OR_BELOW, ENTRY_ITSELF};
use tables::book::BOOK;

// Is the level enough? It counts for a grant alone.
fn level_fits(grants: u64, need: u64, level: u64) -> bool
    ensures { result ≡ level_by grants need level }
{
    if grants == 1 {
        return need <= level;
    }
    true
}

// Do the users that the item is for include the requester? "The entry itself" is left to the base.
fn who_fits(book: &[u64; BOOK], p: &[u8], x: Scope, q: &[u8], who: Requester) -> bool
    requires { BookFits book.now }
    ensures { result ≡ who_by x.who (Name.covers (schema_of (schema book.now)) (parts_of x.user_parts (lines_at (width book.now) p.now x.user)) (parts_of who.parts (lines_at (width book.now) q.now who.place))) x.user_parts who.parts }
{
    if x.who == ALL_USERS {
        return true;
    }
    if x.who == ENTRY_ITSELF {
        return true;
    }
    if x.who != AT_OR_BELOW {
        if x.user_parts != who.parts {
            return false;
        }
    }
    covers(book, p, x.user, x.user_parts, q, who.place, who.parts)
}

// Is the item for the requester?
pub(crate) fn asked(book: &[u64; BOOK], p: &[u8], x: Scope, q: &[u8], who: Requester) -> bool
    requires { BookFits book.now }
    ensures { result ≡ asked_by (schema_of (schema book.now)) (width book.now) p.now x q.now who }
{
    if level_fits(x.grants, x.level, who.level) {
        return who_fits(book, p, x, q, who);
    }
    false
}
