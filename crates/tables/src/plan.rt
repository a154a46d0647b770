// What an answer is made of, decided before a byte of it is written: the outcome, the entries whose lines follow, by number, and what is selected of them.
ghost use Rattle.std.specs.Prelude.{◌≡◌, ◌<◌};
ghost use Rattle.access_set.specs.Member.{bit_of};
ghost use Rattle.tables.specs.Outcome.{is_result, absent_plan, refused_plan};

use rules::Outcome;

// The answer of one request. What an operation or outcome does not have is 0.
#[derive(Clone, Copy)]
pub struct Plan {
    // Line 30: operation, outcome, and whether the size limit cut something off.
    pub operation: u64,
    pub outcome: Outcome,
    pub more: u64,
    // The number of the entry whose name is printed, 0 for the empty name: the matched name, or the name of the entry that is read.
    pub name: usize,
    // The number of the entry that is read.
    pub entry: usize,
    // Line 31: a value is equal.
    pub equal: u64,
    // How many of the entries found are printed.
    pub shown: usize,
}

// What K 12 selects, made once for a request.
#[derive(Clone, Copy)]
pub struct Choice {
    // The types selected, a bit for each rank.
    pub ranks: u64,
    // Values are wanted.
    pub values: bool,
    // The list of types is empty.
    pub nothing: bool,
}

// No such object, with the matched name, that of entry number `missing`.
pub fn absent(operation: u64, missing: usize) -> Plan
    ensures { result ≡ absent_plan operation missing }
{
    Plan {
        operation: operation,
        outcome: Outcome::NoSuchObject,
        more: 0,
        name: missing,
        entry: 0,
        equal: 0,
        shown: 0,
    }
}

// An outcome with nothing after it.
pub fn refused(operation: u64, outcome: Outcome) -> Plan
    ensures { result ≡ refused_plan operation outcome }
{
    Plan {
        operation: operation,
        outcome: outcome,
        more: 0,
        name: 0,
        entry: 0,
        equal: 0,
        shown: 0,
    }
}

// Is it a result?
pub fn is_result(outcome: Outcome) -> bool
    ensures { result ≡ is_result outcome }
{
    matches!(outcome, Outcome::Result)
}

// Is the type of this rank selected?
pub fn chosen(choice: Choice, rank: usize) -> bool
    requires { rank < 64 }
    ensures { result ≡ bit_of choice.ranks rank }
{
    (choice.ranks >> rank) % 2 == 1
}
