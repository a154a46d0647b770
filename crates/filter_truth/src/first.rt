// "and" and "or" of the first edition, one part at a time.
ghost use Rattle.std.specs.Prelude.{◌≡◌};
ghost use Rattle.tables.specs.FilterLines as Filter;

use rules::Truth;

// "and" in the first edition: undefined is neutral; false if one is false, else true.
pub(crate) fn both_first(t: Truth, u: Truth) -> Truth
    ensures { result ≡ Filter.both_first t u }
{
    match t {
        Truth::Undefined => u,
        Truth::False => Truth::False,
        Truth::True => match u {
            Truth::False => Truth::False,
            Truth::True => Truth::True,
            Truth::Undefined => Truth::True,
        },
    }
}

// "or" in the first edition: undefined is neutral; true if one is true, else false.
// Not one function with 'both_first': 'negated(both_first(negated(t), negated(u)))' would be no plainer.
pub(crate) fn either_first(t: Truth, u: Truth) -> Truth
    ensures { result ≡ Filter.either_first t u }
{
    match t {
        Truth::Undefined => u,
        Truth::True => Truth::True,
        Truth::False => match u {
            Truth::True => Truth::True,
            Truth::False => Truth::False,
            Truth::Undefined => Truth::False,
        },
    }
}
