// The target of an alias: K 36 and its K 9 lines, after the value lines of an entry.
#![tactic(auto)]

ghost use Rattle.std.specs.Prelude.{◌≡◌, ◌+◌, ◌≤◌, length};
ghost use Rattle.sheet_kind.specs.Kinds.{number_of};
ghost use Rattle.rules.specs.Refusals.{refusal_number, refusal_in};
ghost use Rattle.directory_alias.specs.Target.{stray_number, absent_number, part_number, target_noted, PartsAsked, TargetAsked, TargetAnswered};

use rules::Format;
use rules::refusals::Refusal;
use sheet_form::columns::directory_columns;
use sheet_kind::{Kind, is};
use sheet_line::{Line, Taken};

// The last entry, after its values: its number, whether it is an alias, whether it lacks its naming value, and what stands next, with its position.
#[derive(Drop)]
pub struct Last {
    pub number: usize,
    pub alias: bool,
    pub lacks: bool,
    pub at: usize,
    pub taken: Taken,
}

// A target: 0 for no alias, or the position of the first K 9 line times 16 and how many there are; and what stands after them, with its position.
#[derive(Drop)]
pub struct TargetLines {
    pub target: u64,
    pub at: usize,
    pub taken: Taken,
}

// A line where one of this kind is due after `number` entries, of which the last lacks its naming value or not: refused or not. `top` is the highest type.
fn stray(line: Line, kind: Kind, top: u64, number: usize, lacks: bool) -> Result<(), Refusal>
    ensures { refusal_in result ≡ stray_number top (number_of kind) number lacks line }
{
    if !directory_columns(line, top) {
        return Err(Refusal::NotAllowed);
    }
    if is(line.kind, kind) {
        return Ok(());
    }
    if !is(line.kind, Kind::Entry) {
        return Err(Refusal::OutOfOrder);
    }
    if (number as u64) < line.a {
        return Err(Refusal::NotAllowed);
    }
    if lacks {
        return Err(Refusal::NamingValueNotHeld);
    }
    Err(Refusal::OutOfOrder)
}

// What refuses the sheet where a line is due and none stands.
fn absent(taken: Taken, lacks: bool) -> Refusal
    ensures { refusal_number result ≡ absent_number lacks taken }
{
    match taken {
        Taken::Line(_) => Refusal::NotAllowed,
        Taken::NotInForm => Refusal::NotAllowed,
        Taken::End => {
            if lacks {
                return Refusal::NamingValueNotHeld;
            }
            Refusal::OutOfOrder
        }
    }
}

// A line where a part of a target is due: refused or not.
fn part_line(
    s: &[u8],
    top: u64,
    schema: &[u64],
    number: usize,
    lacks: bool,
    line: Line,
) -> Result<(), Refusal>
    requires { line.place + line.length ≤ length s.now }
    ensures { refusal_in result ≡ part_number top s.now schema.now number lacks line }
{
    stray(line, Kind::NamePart, top, number, lacks)?;
    if !name::allowed(schema, line.a, sheet_line::bytes(s, line)) {
        return Err(Refusal::OutsideSchema);
    }
    Ok(())
}

// The K 9 lines that the K 36 `line` counts.
fn parts(s: &[u8], f: Format, schema: &[u64], e: Last, line: Line) -> Result<TargetLines, Refusal>
    requires { PartsAsked f s.now schema.now e line }
    ensures { TargetAnswered f s.now schema.now e (target_noted result) }
{
    let mut at = line.next;
    for _k in 0..line.b {
        let taken = sheet_line::take(s, at, f.width);
        let Taken::Line(part) = taken else {
            return Err(absent(taken, e.lacks));
        };
        part_line(s, f.top, schema, e.number, e.lacks, part)?;
        at = part.next;
    }
    Ok(TargetLines {
        target: line.next as u64 * 16 + line.b,
        at,
        taken: sheet_line::take(s, at, f.width),
    })
}

// The target of the entry `e`, if it is an alias.
pub fn target(s: &[u8], f: Format, schema: &[u64], e: Last) -> Result<TargetLines, Refusal>
    requires { TargetAsked f s.now schema.now e }
    ensures { TargetAnswered f s.now schema.now e (target_noted result) }
{
    let taken = e.taken;
    if !e.alias {
        return Ok(TargetLines {
            target: 0,
            at: e.at,
            taken,
        });
    }
    let Taken::Line(line) = taken else {
        return Err(absent(taken, e.lacks));
    };
    stray(line, Kind::Target, f.top, e.number, e.lacks)?;
    parts(s, f, schema, e, line)
}
