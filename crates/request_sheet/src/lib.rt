// A request sheet judged: the refusal that the rules give, or the positions and numbers that answering needs.
// Nothing is copied: names, types, the value and the filter stay in the sheet, noted by position.
#![tactic(auto)]

ghost use Rattle.std.specs.Prelude.{◌≡◌};
ghost use Rattle.rules.specs.Sheet.{Usable};
ghost use Rattle.rules.specs.Request.{request_grammar};
ghost use Rattle.rules.specs.Places.{schema_of};
ghost use Rattle.request_sheet.specs.Noted.{RequestJudged};
ghost use Rattle.request_sheet.specs.Whole.{numbered, edition_in, asked, end_by, asked_of, orderable_by};

use request_operation::{Body, body_at};
use rules::refusals::Refusal;
use rules::{Edition, Format, operation};
use sheet_due::grammar::Grammar;
use sheet_due::{Seen, group_at, seen_at};
use sheet_kind::Kind;
use sheet_line::Line;

// What a request asks. What its operation does not have is 0, and no `Option`: so `NoSelection`, `NoAssertion` and `NoFilter` of `RequestNoted` say.
#[derive(Clone, Copy)]
pub struct Asked {
    pub level: u64,
    // The position of the first K 9 line, and how many there are.
    pub requester: usize,
    pub requester_parts: usize,
    pub operation: u64,
    pub base: usize,
    pub base_parts: usize,
    pub limit: u64,
    // K 12, the position of the first K 13 line, and how many there are.
    pub listed: bool,
    pub types: usize,
    pub types_listed: usize,
    pub values: bool,
    // K 14: its type, where its bytes begin, and how many they are.
    pub attribute: u64,
    pub value: usize,
    pub length: usize,
    // K 16: its type, of which 0 is none, and whether the order is falling.
    pub order_type: u64,
    pub falling: bool,
    pub subset: u64,
    // The position of the filter's first line, and the logic that it is evaluated by.
    pub filter: usize,
    pub edition: Edition,
}

// The edition that a search is asked in, by column C of K 10; other operations have none.
fn edition_in(op: u64, c: u64) -> Edition
    ensures { result ≡ edition_in op c }
{
    if op != operation::SEARCH {
        return Edition::LaterLogic;
    }
    if c == 1 {
        return Edition::FirstEdition;
    }
    Edition::LaterLogic
}

// All that was found.
fn accept(requester: Line, base: Line, body: Body) -> Asked
    ensures { result ≡ asked requester base body }
{
    Asked {
        level: requester.a,
        requester: requester.next,
        requester_parts: requester.b as usize,
        operation: base.a,
        base: base.next,
        base_parts: base.b as usize,
        limit: base.c,
        listed: body.selection.a == 1,
        types: body.selection.next,
        types_listed: body.selection.b as usize,
        values: body.selection.c == 1,
        attribute: body.assertion.a,
        value: body.assertion.place,
        length: body.assertion.length,
        order_type: body.ordering.a,
        falling: body.ordering.b == 1,
        subset: body.subset.a,
        filter: body.subset.next,
        edition: edition_in(base.a, requester.c),
    }
}

// What was seen after the last line that was due.
fn end_by(requester: Line, base: Line, body: Body, seen: Seen) -> Result<Asked, Refusal>
    ensures { numbered result ≡ end_by 20 requester base body seen }
{
    match seen {
        Seen::Line(_) => Err(Refusal::RequestOutOfOrder),
        Seen::NotAllowed => Err(Refusal::RequestNotAllowed),
        Seen::Missing => Ok(accept(requester, base, body)),
    }
}

// The sheet line by line: requester, base, the operation's lines, the end.
fn asked_of(q: &[u8], f: Format) -> Result<Asked, Refusal>
    requires { Usable f }
    ensures { numbered result ≡ asked_of (request_grammar f.top) f.width q.now }
{
    if 8192 < q.len() {
        return Err(Refusal::RequestTooLong);
    }
    let g = Grammar::Request;
    let requester = group_at(q, f, g, &[], Ok(0), Kind::Requester, Kind::NamePart)?;
    let base = group_at(
        q,
        f,
        g,
        &[],
        Ok(requester.next),
        Kind::Operation,
        Kind::NamePart,
    )?;
    let body = body_at(q, f, base.next, base.line.a)?;
    end_by(requester.line, base.line, body, seen_at(q, f, body.next))
}

// The request, unless its entries are to be ordered by a type that is unknown or has no order.
fn orderable(schema: &[u64], asked: Asked) -> Result<Asked, Refusal>
    ensures { numbered result ≡ orderable_by (schema_of schema.now) asked }
{
    if asked.order_type == 0 {
        return Ok(asked);
    }
    if name::ordered(schema, asked.order_type) {
        return Ok(asked);
    }
    Err(Refusal::TypeWithoutOrder)
}

// The request in the sheet `q`, in the format `f`, under the schema of the directory.
pub fn judge(q: &[u8], f: Format, schema: &[u64]) -> Result<Asked, Refusal>
    requires { Usable f }
    ensures { RequestJudged f (schema_of schema.now) q.now result }
{
    let asked = asked_of(q, f)?;
    orderable(schema, asked)
}
