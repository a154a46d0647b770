// Which entries each item is for, resolved once for a request: the level first, then the user's name, then the base. The reach of an item is one number.
#![tactic(auto)]

mod asked;

ghost use Rattle.std.specs.Prelude.{◌≡◌, ℕ, ◌≤◌, ◌<◌, List, eqb, length, take, drop};
ghost use Rattle.rules.specs.Sheet.{Bytes};
ghost use Rattle.rules.specs.Directory.{Stored};
ghost use Rattle.rules.specs.Decision.{Setting};
ghost use Rattle.rules.specs.Places.{lines_at, parts_of};
ghost use Rattle.tables.specs.Numbers.{walk, base_reach, own_reach};
ghost use Rattle.tables.specs.Book.{entry_count, width};
ghost use Rattle.tables.specs.World.{Entries, Listed};
ghost use Rattle.access_scope.specs.Scopes.{scope_at, spread_by, spread_from, item_by, own_number, reaches_by};

use asked::asked;
use directory_lookup::climb::climbs;
use directory_lookup::find::resolve;
use permission_sheet::{
    ALL_RIGHTS, ALL_SCOPES, BASE, BASE_PARTS, BELOW, GRANTS, LEVEL, RIGHTS, SCOPES, USER,
    USER_PARTS, WHO,
};
use rules::who::ENTRY_ITSELF;
use tables::book::BOOK;

// The requester: the level, and the name, the `parts` K 9 lines at position `place` of the request.
#[derive(Clone, Copy)]
pub struct Requester {
    pub level: u64,
    pub place: usize,
    pub parts: usize,
}

// What an item says of entries and users, as the permission sheet's judge noted it: each name by its position on that sheet and its parts.
#[derive(Clone, Copy)]
pub struct Scope {
    pub grants: u64,
    pub level: u64,
    pub who: u64,
    pub user: usize,
    pub user_parts: usize,
    pub below: u64,
    pub base: usize,
    pub base_parts: usize,
}

// The scope of the item of index `k`, from its rows.
fn scope_at(rights: &[u64; ALL_RIGHTS], scopes: &[u64; ALL_SCOPES], k: usize) -> Scope
    requires { k < 256 }
    ensures { result ≡ scope_at rights.now scopes.now k }
{
    let r = k * RIGHTS;
    let s = k * SCOPES;
    Scope {
        grants: rights[r + GRANTS],
        level: scopes[s + LEVEL],
        who: scopes[s + WHO],
        user: scopes[s + USER] as usize,
        user_parts: scopes[s + USER_PARTS] as usize,
        below: scopes[s + BELOW],
        base: scopes[s + BASE] as usize,
        base_parts: scopes[s + BASE_PARTS] as usize,
    }
}

// The base `b` alone, or with all below.
fn base_reach(below: u64, b: usize) -> usize
    requires { b ≤ 256 }
    ensures { result ≡ base_reach (eqb below 1) b }
{
    if below == 1 {
        return 2 * b + 2;
    }
    if b == 0 {
        return 0;
    }
    2 * b + 1
}

// The requester's own entry `o`, if the base `b` has it in it.
fn own_reach(book: &[u64; BOOK], below: u64, b: usize, o: usize) -> usize
    requires { ((d : Bytes) × Listed d book.now) × (o ≤ entry_count book.now) }
    ensures { (σ : Setting) (es : List Stored) (d : Bytes) (held : List ℕ) → Entries σ es d book.now held → result ≡ own_reach es (eqb below 1) b o }
{
    if o == 0 {
        return 0;
    }
    if below == 1 {
        if climbs(book, b, o) {
            return 2 * o + 1;
        }
        return 0;
    }
    if o == b {
        return 2 * o + 1;
    }
    0
}

// The reach of an item with the base `b`, by what it says of users.
fn spread(book: &[u64; BOOK], who: u64, below: u64, b: usize, o: usize) -> usize
    requires { ((d : Bytes) × Listed d book.now) × (b ≤ 256) × (o ≤ entry_count book.now) }
    ensures { (σ : Setting) (es : List Stored) (d : Bytes) (held : List ℕ) → Entries σ es d book.now held → result ≡ spread_by es who below b o }
{
    if who != ENTRY_ITSELF {
        return base_reach(below, b);
    }
    own_reach(book, below, b, o)
}

// The reach of an item that is for the requester: its base resolved.
fn reach_base(book: &[u64; BOOK], d: &[u8], p: &[u8], x: Scope, o: usize) -> usize
    requires { Listed d.now book.now × (o ≤ entry_count book.now) }
    ensures { (σ : Setting) (es : List Stored) (held : List ℕ) → Entries σ es d.now book.now held → result ≡ spread_from es x.who x.below o (walk σ.schema es 0 (parts_of x.base_parts (lines_at (width book.now) p.now x.base))) }
{
    match resolve(book, d, p, x.base, x.base_parts) {
        Some(b) => spread(book, x.who, x.below, b, o),
        None => 0,
    }
}

// The reach of an item; `o` is the requester's own number. An item that is not for the requester is not resolved.
fn reach_item(
    book: &[u64; BOOK],
    d: &[u8],
    p: &[u8],
    x: Scope,
    q: &[u8],
    who: Requester,
    o: usize,
) -> usize
    requires { Listed d.now book.now × (o ≤ entry_count book.now) }
    ensures { (σ : Setting) (es : List Stored) (held : List ℕ) → Entries σ es d.now book.now held → result ≡ item_by σ.schema es (width book.now) p.now x q.now who o }
{
    if asked(book, p, x, q, who) {
        return reach_base(book, d, p, x, o);
    }
    0
}

// The number of the entry that the requester's name names, 0 where there is none.
fn own_number(book: &[u64; BOOK], d: &[u8], q: &[u8], who: Requester) -> usize
    requires { Listed d.now book.now }
    ensures { (result ≤ entry_count book.now) × ((σ : Setting) (es : List Stored) (held : List ℕ) → Entries σ es d.now book.now held → result ≡ own_number σ.schema es (width book.now) q.now who) }
{
    match resolve(book, d, q, who.place, who.parts) {
        Some(b) => b,
        None => 0,
    }
}

// The reaches of the first `count` items for the requester, whose name stands on the sheet `q`, to the front of `reach`; what is behind them stays.
pub fn reach_all(
    book: &[u64; BOOK],
    d: &[u8],
    p: &[u8],
    rights: &[u64; ALL_RIGHTS],
    scopes: &[u64; ALL_SCOPES],
    q: &[u8],
    who: Requester,
    count: usize,
    reach: &mut [usize; 256],
)
    requires { Listed d.now book.now × (length reach.old ≡ 256) × (count ≤ 256) }
    ensures front { (σ : Setting) (es : List Stored) (held : List ℕ) → Entries σ es d.now book.now held → take count reach.new ≡ reaches_by σ.schema es (width book.now) p.now rights.now scopes.now q.now who count }
    ensures rest { drop count reach.new ≡ drop count reach.old }
{
    let o = own_number(book, d, q, who);
    for k in 0..count {
        reach[k] = reach_item(book, d, p, scope_at(rights, scopes, k), q, who, o);
    }
}
