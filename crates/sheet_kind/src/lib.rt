// What a line is, by its kind: each kind of all sheets has its name here, and its number.
#![tactic(auto)]

ghost use Rattle.std.specs.Prelude.{◌≡◌, eqb};
ghost use Rattle.sheet_kind.specs.Kinds.{number_of, kind_of};

// The lines of the directory, of a permission item in their order, a part of a name, the lines of a request in their order, of a
// filter, of an answer, an alias's target, and a kind that no sheet has.
#[derive(Clone, Copy)]
pub enum Kind {
    AttributeType = 1,
    Entry = 2,
    Value = 3,
    Item = 4,
    Base = 5,
    UserClass = 6,
    ProtectedItem = 7,
    Permissions = 8,
    NamePart = 9,
    Requester = 10,
    Operation = 11,
    Selection = 12,
    SelectedType = 13,
    Assertion = 14,
    Subset = 15,
    Ordering = 16,
    And = 20,
    Or = 21,
    Not = 22,
    Equality = 23,
    AtLeast = 24,
    AtMost = 25,
    Present = 26,
    Substrings = 27,
    Piece = 28,
    Outcome = 30,
    Comparison = 31,
    Child = 32,
    ReturnedEntry = 33,
    ReturnedType = 34,
    ReturnedValue = 35,
    Target = 36,
    Unknown = 0,
}

// What the kind `k` is. Not a `TryFrom`: each number has a kind, `Unknown` if no other.
#[tactic(auto, unfolding(crate::specs::Kinds::kind_of))]
pub fn kind_of(k: u64) -> Kind
    ensures { result ≡ kind_of k }
{
    match k {
        1 => Kind::AttributeType,
        2 => Kind::Entry,
        3 => Kind::Value,
        4 => Kind::Item,
        5 => Kind::Base,
        6 => Kind::UserClass,
        7 => Kind::ProtectedItem,
        8 => Kind::Permissions,
        9 => Kind::NamePart,
        10 => Kind::Requester,
        11 => Kind::Operation,
        12 => Kind::Selection,
        13 => Kind::SelectedType,
        14 => Kind::Assertion,
        15 => Kind::Subset,
        16 => Kind::Ordering,
        20 => Kind::And,
        21 => Kind::Or,
        22 => Kind::Not,
        23 => Kind::Equality,
        24 => Kind::AtLeast,
        25 => Kind::AtMost,
        26 => Kind::Present,
        27 => Kind::Substrings,
        28 => Kind::Piece,
        30 => Kind::Outcome,
        31 => Kind::Comparison,
        32 => Kind::Child,
        33 => Kind::ReturnedEntry,
        34 => Kind::ReturnedType,
        35 => Kind::ReturnedValue,
        36 => Kind::Target,
        _ => Kind::Unknown,
    }
}

// The number of a kind.
pub fn number_of(kind: Kind) -> u64
    ensures { result ≡ number_of kind }
{
    kind as u64
}

// Is `k` the number of this kind?
pub fn is(k: u64, kind: Kind) -> bool
    ensures { result ≡ eqb k (number_of kind) }
{
    k == number_of(kind)
}
