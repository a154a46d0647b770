// Truths: of a test; and the three values of "and", "or" and "not", one part at a time, in either edition.
#![tactic(auto)]

mod first;

ghost use Rattle.std.specs.Prelude.{◌≡◌, not};
ghost use Rattle.rules.specs.Filter.{is_true, negation, truth};
ghost use Rattle.rules.specs.FilterItem.{is_less};
ghost use Rattle.tables.specs.FilterLines as Filter;
ghost use Rattle.filter_truth.specs.Join.{join_by};

use first::{both_first, either_first};
use rules::{Edition, Truth};
use std::cmp::Ordering;

// The truth of a test. Not a `From<bool>`: the same two cases, without the name.
pub fn truth_of(b: bool) -> Truth
    ensures { result ≡ truth b }
{
    if b { Truth::True } else { Truth::False }
}

// Is the first value not below the second?
pub fn not_below(order: Ordering) -> bool
    ensures { result ≡ not (is_less order) }
{
    matches!(order, Ordering::Equal | Ordering::Greater)
}

// Is it true?
pub fn is_true(t: Truth) -> bool
    ensures { result ≡ is_true t }
{
    matches!(t, Truth::True)
}

// "and" of what came before and one part more: false if one is false, true if both are true, else undefined.
fn both(t: Truth, u: Truth) -> Truth
    ensures { result ≡ Filter.both t u }
{
    match t {
        Truth::False => Truth::False,
        Truth::True => u,
        Truth::Undefined => match u {
            Truth::False => Truth::False,
            Truth::True => Truth::Undefined,
            Truth::Undefined => Truth::Undefined,
        },
    }
}

// "or" of what came before and one part more: true if one is true, false if both are false, else undefined.
// Not one function with 'both': by its dual, 'negated(both(negated(t), negated(u)))', or with the two truths as arguments, it would be no plainer.
fn either(t: Truth, u: Truth) -> Truth
    ensures { result ≡ Filter.either t u }
{
    match t {
        Truth::True => Truth::True,
        Truth::False => u,
        Truth::Undefined => match u {
            Truth::True => Truth::True,
            Truth::False => Truth::Undefined,
            Truth::Undefined => Truth::Undefined,
        },
    }
}

// "and" of what came before and one part more, by the edition.
fn both_in(edition: Edition, t: Truth, u: Truth) -> Truth
    ensures { result ≡ Filter.both_in edition t u }
{
    match edition {
        Edition::LaterLogic => both(t, u),
        Edition::FirstEdition => both_first(t, u),
    }
}

// "or" of what came before and one part more, by the edition.
fn either_in(edition: Edition, t: Truth, u: Truth) -> Truth
    ensures { result ≡ Filter.either_in edition t u }
{
    match edition {
        Edition::LaterLogic => either(t, u),
        Edition::FirstEdition => either_first(t, u),
    }
}

// "and" or "or" of what came before and one part more.
pub fn joined(edition: Edition, conjunction: bool, t: Truth, u: Truth) -> Truth
    ensures { result ≡ join_by edition conjunction t u }
{
    if conjunction {
        return both_in(edition, t, u);
    }
    either_in(edition, t, u)
}

// What "and" or "or" of so many parts starts from: the truth of no parts, or in the first edition, where there are some, undefined.
pub fn start(edition: Edition, conjunction: bool, parts: u64) -> Truth
    ensures { result ≡ Filter.start_in edition (truth conjunction) parts }
{
    match edition {
        Edition::LaterLogic => truth_of(conjunction),
        Edition::FirstEdition => {
            if parts == 0 {
                return truth_of(conjunction);
            }
            Truth::Undefined
        }
    }
}

// "not": it keeps undefined.
pub fn negated(t: Truth) -> Truth
    ensures { result ≡ negation t }
{
    match t {
        Truth::True => Truth::False,
        Truth::False => Truth::True,
        Truth::Undefined => t,
    }
}
