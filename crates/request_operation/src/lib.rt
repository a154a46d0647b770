// The lines of a request after its base, by its operation: what is selected, compared, or searched for.
#![tactic(auto)]

ghost use Rattle.std.specs.Prelude.{◌≡◌};
ghost use Rattle.rules.specs.Sheet.{Usable};
ghost use Rattle.rules.specs.Request.{request_grammar};
ghost use Rattle.sheet_due.specs.Lines.{reached_at};
ghost use Rattle.sheet_due.specs.Outcomes.{Gives};
ghost use Rattle.request_operation.specs.Operations.{read_at, compare_at, list_at, search_lines_at, search_at, body_at};

use request_filter::filter_at;
use rules::refusals::Refusal;
use rules::{Format, operation};
use sheet_due::grammar::Grammar;
use sheet_due::{due_at, group_at, no_line};
use sheet_kind::Kind;
use sheet_line::Line;

// The lines, each 0 where the operation has none, and the position after them.
#[derive(Clone, Copy)]
pub struct Body {
    // K 12, which its K 13 follow.
    pub selection: Line,
    // K 14.
    pub assertion: Line,
    // K 16, 0 where a search has none.
    pub ordering: Line,
    // K 15, which the filter follows.
    pub subset: Line,
    pub next: usize,
}

// The lines that say of which entries a search is and how they are ordered: K 16, 0 where there is none, and K 15.
#[derive(Drop)]
pub struct SearchLines {
    pub ordering: Line,
    pub subset: Line,
}

// A read: K 12 with its K 13.
fn read_at(q: &[u8], f: Format, at: usize) -> Result<Body, Refusal>
    requires { Usable f }
    ensures { let b = read_at (request_grammar f.top) f.width q.now at in Gives result b.refusal b.body }
{
    let group = group_at(
        q,
        f,
        Grammar::Request,
        &[],
        Ok(at),
        Kind::Selection,
        Kind::SelectedType,
    )?;
    Ok(Body {
        selection: group.line,
        assertion: no_line(),
        ordering: no_line(),
        subset: no_line(),
        next: group.next,
    })
}

// A compare: K 14.
fn compare_at(q: &[u8], f: Format, at: usize) -> Result<Body, Refusal>
    requires { Usable f }
    ensures { let b = compare_at (request_grammar f.top) f.width q.now at in Gives result b.refusal b.body }
{
    let assertion = due_at(q, f, Grammar::Request, &[], Ok(at), Kind::Assertion)?;
    Ok(Body {
        selection: no_line(),
        assertion,
        ordering: no_line(),
        subset: no_line(),
        next: assertion.next,
    })
}

// A list has no more lines.
fn list_at(at: usize) -> Body
    ensures { result ≡ (list_at at).body }
{
    Body {
        selection: no_line(),
        assertion: no_line(),
        ordering: no_line(),
        subset: no_line(),
        next: at,
    }
}

// K 15, and K 16 before it where there is one. K 15 is read first: most searches have no K 16.
fn search_lines(q: &[u8], f: Format, at: usize) -> Result<SearchLines, Refusal>
    requires { Usable f }
    ensures { let x = search_lines_at (request_grammar f.top) f.width q.now (reached_at at) in Gives result x.subset.refusal (record { ordering = x.ordering; subset = x.subset.line }) }
{
    match due_at(q, f, Grammar::Request, &[], Ok(at), Kind::Subset) {
        Ok(subset) => Ok(SearchLines {
            ordering: no_line(),
            subset,
        }),
        Err(_) => {
            let ordering = due_at(q, f, Grammar::Request, &[], Ok(at), Kind::Ordering)?;
            let subset = due_at(q, f, Grammar::Request, &[], Ok(ordering.next), Kind::Subset)?;
            Ok(SearchLines { ordering, subset })
        }
    }
}

// A search: K 12 with its K 13, K 16 where there is one, K 15, and the filter.
fn search_at(q: &[u8], f: Format, at: usize) -> Result<Body, Refusal>
    requires { Usable f }
    ensures { let b = search_at (request_grammar f.top) f.width q.now at in Gives result b.refusal b.body }
{
    let group = group_at(
        q,
        f,
        Grammar::Request,
        &[],
        Ok(at),
        Kind::Selection,
        Kind::SelectedType,
    )?;
    let scope = search_lines(q, f, group.next)?;
    let end = filter_at(q, scope.subset.next, f, 16, 128)?;
    Ok(Body {
        selection: group.line,
        assertion: no_line(),
        ordering: scope.ordering,
        subset: scope.subset,
        next: end.next,
    })
}

// The lines of the operation `op`, from a position on.
pub fn body_at(q: &[u8], f: Format, at: usize, op: u64) -> Result<Body, Refusal>
    requires { Usable f }
    ensures { let b = body_at (request_grammar f.top) f.width q.now at op in Gives result b.refusal b.body }
{
    match op {
        operation::READ => read_at(q, f, at),
        operation::COMPARE => compare_at(q, f, at),
        operation::LIST => Ok(list_at(at)),
        _ => search_at(q, f, at),
    }
}
