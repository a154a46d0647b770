// A sheet and a position in it, as one: a reader that is carried from line to line. Each function is thin and leaves the work
// to one over a plain slice.
#![tactic(auto)]

ghost use Rattle.std.specs.Prelude.{◌≡◌};
ghost use Rattle.rules.specs.Sheet.{Usable};
ghost use Rattle.rules.specs.Places.{schema_of};
ghost use Rattle.rules.specs.Refusals.{refusal_in};
ghost use Rattle.sheet_kind.specs.Kinds.{number_of};
ghost use Rattle.sheet_due.specs.Grammars.{grammar_of};
ghost use Rattle.sheet_reader.specs.Advances.{Reads, reader_at, due_advance, group_advance};

use rules::Format;
use rules::refusals::Refusal;
use sheet_due::grammar::Grammar;
use sheet_due::{due_at, group_at};
use sheet_kind::Kind;
use sheet_line::Line;

// A sheet, and the position of the line that is read next.
#[derive(Drop)]
pub struct Reader<'a> {
    pub sheet: &'a [u8],
    pub at: usize,
}

// A line that was due, and the reader moved past the line and the lines that it counts.
#[derive(Drop)]
pub struct Advance<'a> {
    pub line: Line,
    pub rest: Reader<'a>,
}

impl<'a> Reader<'a> {
    // A reader at a position of a sheet.
    pub fn new(sheet: &'a [u8], at: usize) -> Reader<'a>
        ensures { result ≡ reader_at sheet.entry at }
    {
        Reader { sheet, at }
    }

    // The line of a kind that is due at the reader's position, unless there is a refusal already.
    pub fn due(
        self,
        f: Format,
        g: Grammar,
        schema: &[u64],
        before: Result<(), Refusal>,
        kind: Kind,
    ) -> Result<Advance<'a>, Refusal>
        requires { Usable f }
        ensures { Reads result (due_advance (grammar_of f.top (schema_of schema.now) g) f.width self.entry (refusal_in before) (number_of kind)) }
    {
        let line = due_at(self.sheet, f, g, schema, before.and(Ok(self.at)), kind)?;
        Ok(Advance {
            line,
            rest: Reader {
                sheet: self.sheet,
                at: line.next,
            },
        })
    }

    // The same, and after the line as many of the kind `part` as its column B says.
    pub fn group(
        self,
        f: Format,
        g: Grammar,
        schema: &[u64],
        before: Result<(), Refusal>,
        kind: Kind,
        part: Kind,
    ) -> Result<Advance<'a>, Refusal>
        requires { Usable f }
        ensures { Reads result (group_advance (grammar_of f.top (schema_of schema.now) g) f.width self.entry (refusal_in before) (number_of kind) (number_of part)) }
    {
        let group = group_at(
            self.sheet,
            f,
            g,
            schema,
            before.and(Ok(self.at)),
            kind,
            part,
        )?;
        Ok(Advance {
            line: group.line,
            rest: Reader {
                sheet: self.sheet,
                at: group.next,
            },
        })
    }
}
