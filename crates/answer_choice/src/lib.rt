// What a request selects, K 12, by the ranks of the types in the schema: made once for a request.
#![tactic(auto)]

ghost use Rattle.std.specs.Prelude.{◌≡◌, ◌||◌, ℕ, ◌≤◌, ◌<◌, eqb, length};
ghost use Rattle.rules.specs.Lists.{any};
ghost use Rattle.rules.specs.Places.{lines_at, types_of};
ghost use Rattle.rules.specs.Request.{Selection};
ghost use Rattle.access_set.specs.Member.{bit_of};
ghost use Rattle.tables.specs.Book.{BookFits, width, schema};
ghost use Rattle.tables.specs.Held.{type_at, Distinct};
ghost use Rattle.tables.specs.Choice.{Chooses};
ghost use Rattle.answer_choice.specs.Selected.{Selects, KnownSelection};

use request_sheet::Asked;
use sheet_line::Taken;
use tables::book::{BOOK, WIDTH};
use tables::plan::Choice;

// All ranks.
const ALL: u64 = 18446744073709551615;

// The ranks with that of the type `t`, if the schema has it.
fn with_type(types: &[u64], ranks: u64, t: u64) -> u64
    requires { (length types.now ≤ 64) × Distinct types.now }
    ensures { (i : ℕ) → i < length types.now → bit_of result i ≡ (eqb (type_at types.now i) t || bit_of ranks i) }
{
    let i = name::rank(types, 0, t);
    if i < types.len() {
        return ranks | (1u64 << i);
    }
    ranks
}

// The ranks of the types of the `n` K 13 lines at position `i` of the request.
fn ranks_listed(book: &[u64; BOOK], q: &[u8], i: usize, n: usize) -> u64
    requires { BookFits book.now × Distinct (schema book.now) }
    ensures { (k : ℕ) → k < length (schema book.now) → bit_of result k ≡ any (eqb (type_at (schema book.now) k)) (types_of n (lines_at (width book.now) q.now i)) }
{
    let types = tables::book::schema(book);
    let w = book[WIDTH] as usize;
    let mut ranks: u64 = 0;
    let mut at = i;
    for _ in 0..n {
        let Taken::Line(line) = sheet_line::take(q, at, w) else {
            return ranks;
        };
        ranks = with_type(types, ranks, line.a);
        at = line.next;
    }
    ranks
}

// What the request selects.
pub fn choice_of(book: &[u64; BOOK], q: &[u8], asked: Asked) -> Choice
    requires { BookFits book.now × Distinct (schema book.now) × KnownSelection (width book.now) q.now asked }
    ensures { (s : Selection) → Selects (width book.now) q.now s asked → Chooses (schema book.now) s result }
{
    if asked.listed {
        return Choice {
            ranks: ranks_listed(book, q, asked.types, asked.types_listed),
            values: asked.values,
            nothing: asked.types_listed == 0,
        };
    }
    Choice {
        ranks: ALL,
        values: asked.values,
        nothing: false,
    }
}
