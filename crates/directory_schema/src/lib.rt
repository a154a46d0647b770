// The schema: the K 1 lines, noted as one number for each attribute type: its number times 4, and its syntax.
#![tactic(auto)]

ghost use Rattle.std.specs.Prelude.{◌≡◌};
ghost use Rattle.rules.specs.Sheet.{Usable};
ghost use Rattle.rules.specs.Refusals.{refusal_in};
ghost use Rattle.directory_schema.specs.Types.{type_refusal, types_noted, TypesJudged};

use rules::Format;
use rules::refusals::Refusal;
use sheet_form::columns::directory_columns;
use sheet_kind::{Kind, is};
use sheet_line::{Line, Taken};

// The K 1 lines: how many there are, their numbers, and what stands after them, with its position.
#[derive(Drop)]
pub struct TypeLines {
    pub count: usize,
    pub schema: [u64; 64],
    pub at: usize,
    pub taken: Taken,
}

// A K 1 line after `n` types, of which the last has the number `last`, where `top` is the highest type: refused or not.
fn type_line(line: Line, top: u64, last: u64, n: usize) -> Result<(), Refusal>
    ensures { refusal_in result ≡ type_refusal top line last n }
{
    if !directory_columns(line, top) {
        return Err(Refusal::NotAllowed);
    }
    if line.a <= last {
        return Err(Refusal::OutOfOrder);
    }
    if 64 <= n {
        return Err(Refusal::OutOfOrder);
    }
    Ok(())
}

// The K 1 lines of a sheet.
pub fn types(s: &[u8], f: Format) -> Result<TypeLines, Refusal>
    requires { Usable f }
    ensures { TypesJudged f s.now (types_noted result) }
{
    let mut schema: [u64; 64] = [0; 64];
    let mut n: usize = 0;
    let mut last: u64 = 0;
    let mut at: usize = 0;
    loop {
        let taken = sheet_line::take(s, at, f.width);
        let Taken::Line(line) = taken else {
            return Ok(TypeLines {
                count: n,
                schema,
                at,
                taken,
            });
        };
        if !is(line.kind, Kind::AttributeType) {
            return Ok(TypeLines {
                count: n,
                schema,
                at,
                taken,
            });
        }
        type_line(line, f.top, last, n)?;
        schema[n] = line.a * 4 + line.b;
        n += 1;
        last = line.a;
        at = line.next;
    }
}
