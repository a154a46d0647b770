// The lines of a permission sheet or a request, taken where they are due: one line, some of one kind, and a line with the lines
// that it counts. A refusal is handed on: after it no line is read. The lines of a request are judged without a schema.
#![tactic(auto)]

pub mod grammar;

ghost use Rattle.std.specs.Prelude.{◌≡◌, ◌≤◌};
ghost use Rattle.rules.specs.Sheet.{Usable};
ghost use Rattle.rules.specs.Columns.{request_forms};
ghost use Rattle.rules.specs.Places.{schema_of};
ghost use Rattle.rules.specs.Refusals.{refusal_number};
ghost use Rattle.sheet_kind.specs.Kinds.{number_of};
ghost use Rattle.sheet_line.specs.Line.{taken_at};
ghost use Rattle.sheet_due.specs.Grammars.{grammar_of};
ghost use Rattle.sheet_due.specs.Outcomes.{Gives};
ghost use Rattle.sheet_due.specs.Lines.{seen_at, misplaced_by, reached_in, no_line, due_at, lines_due, group_at};

use grammar::{Fault, Grammar, in_form, refused, sound};
use rules::Format;
use rules::refusals::Refusal;
use sheet_form::columns::request_columns;
use sheet_kind::{Kind, is};
use sheet_line::{Line, Taken};

// What stands at a position: a line that its sheet may have, a line not in form or not allowed, or nothing.
// No `Result`: after the last line of a request, nothing is what has to stand there.
#[derive(Drop)]
pub enum Seen {
    Line(Line),
    NotAllowed,
    Missing,
}

// A line, and the position after the lines that it counts in column B, the first of which follows it.
#[derive(Clone, Copy)]
pub struct Group {
    pub line: Line,
    pub next: usize,
}

// What stands at a position. The sheet is lent on as a part of itself, and a line is made anew of its numbers: what is copied as a whole right after its
// parts were written one by one waits for them.
fn taken_at(s: &[u8], at: usize, w: usize) -> Taken
    requires { w ≤ 18 }
    ensures { result ≡ taken_at w s.now at }
{
    match sheet_line::take(&s[0..], at, w) {
        Taken::Line(line) => Taken::Line(sheet_line::anew(line)),
        Taken::NotInForm => Taken::NotInForm,
        Taken::End => Taken::End,
    }
}

// What stands at a position of a request, its columns judged.
pub fn seen_at(q: &[u8], f: Format, at: usize) -> Seen
    requires { Usable f }
    ensures { result ≡ seen_at (request_forms f.top) f.width q.now at }
{
    match taken_at(q, at, f.width) {
        Taken::Line(line) => {
            if request_columns(line, f.top) {
                Seen::Line(line)
            } else {
                Seen::NotAllowed
            }
        }
        Taken::NotInForm => Seen::NotAllowed,
        Taken::End => Seen::Missing,
    }
}

// The refusal of what stands in a request where no line is due.
pub fn misplaced_by(seen: Seen) -> Refusal
    ensures { refusal_number result ≡ misplaced_by 20 seen }
{
    match seen {
        Seen::Line(_) => Refusal::RequestOutOfOrder,
        Seen::NotAllowed => Refusal::RequestNotAllowed,
        Seen::Missing => Refusal::RequestOutOfOrder,
    }
}

// No line: all its numbers are 0.
pub fn no_line() -> Line
    ensures { result ≡ no_line }
{
    Line {
        kind: 0,
        a: 0,
        b: 0,
        c: 0,
        place: 0,
        length: 0,
        next: 0,
    }
}

// The line of a kind that is due at a position, unless there is a refusal already.
pub fn due_at(
    s: &[u8],
    f: Format,
    g: Grammar,
    schema: &[u64],
    from: Result<usize, Refusal>,
    kind: Kind,
) -> Result<Line, Refusal>
    requires { Usable f }
    ensures { let d = due_at (grammar_of f.top (schema_of schema.now) g) f.width s.now (reached_in from) (number_of kind) in Gives result d.refusal d.line }
{
    let at = from?;
    match taken_at(s, at, f.width) {
        Taken::Line(line) => {
            if !in_form(g, line, f.top) {
                return Err(refused(g, Fault::NotAllowed));
            }
            if !is(line.kind, kind) {
                return Err(refused(g, Fault::OutOfOrder));
            }
            if sound(s, schema, g, line) {
                return Ok(line);
            }
            Err(refused(g, Fault::OutsideSchema))
        }
        Taken::NotInForm => Err(refused(g, Fault::NotAllowed)),
        Taken::End => Err(refused(g, Fault::OutOfOrder)),
    }
}

// `count` lines of a kind that are due one after the other: the position after them.
pub fn lines_due(
    s: &[u8],
    f: Format,
    g: Grammar,
    schema: &[u64],
    from: Result<usize, Refusal>,
    kind: Kind,
    count: u64,
) -> Result<usize, Refusal>
    requires { Usable f }
    ensures { let r = lines_due (grammar_of f.top (schema_of schema.now) g) f.width s.now (number_of kind) count (reached_in from) in Gives result r.refusal r.next }
{
    let start = from?;
    let mut pos = start;
    for _ in 0..count {
        pos = due_at(s, f, g, schema, Ok(pos), kind)?.next;
    }
    Ok(pos)
}

// A line of a kind that is due, and after it as many of the kind `part` as its column B says.
pub fn group_at(
    s: &[u8],
    f: Format,
    g: Grammar,
    schema: &[u64],
    from: Result<usize, Refusal>,
    kind: Kind,
    part: Kind,
) -> Result<Group, Refusal>
    requires { Usable f }
    ensures { let x = group_at (grammar_of f.top (schema_of schema.now) g) f.width s.now (reached_in from) (number_of kind) (number_of part) in Gives result x.refusal (record { line = x.line; next = x.next }) }
{
    let line = due_at(s, f, g, schema, from, kind)?;
    let next = lines_due(s, f, g, schema, Ok(line.next), part, line.b)?;
    Ok(Group { line, next })
}
