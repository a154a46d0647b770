// The value lines, K 3, of one entry.
#![tactic(auto)]

ghost use Rattle.std.specs.Prelude.{◌≡◌, ◌&&◌, ◌||◌, ◌+◌, ◌%◌, ◌≤◌, ◌<◌, eqb, length, get_or};
ghost use Rattle.rules.specs.Value as Value;
ghost use Rattle.sheet_line.specs.Line.{bytes_of};
ghost use Rattle.sheet_kind.specs.Kinds.{number_of};
ghost use Rattle.sheet_kind.specs.declared.Kind.TheVariants as Kinds;
ghost use Rattle.name.specs.Schema.{rank_in};
ghost use Rattle.tables.specs.Held.{ROWS, HELD};
ghost use Rattle.directory_duplicates.specs.Rulings.{ValueSought, Decides, ruling_noted};
ghost use Rattle.directory_values.specs.ValueLine.{value_ruling};
ghost use Rattle.directory_values.specs.Rows.{written};
ghost use Rattle.directory_values.specs.Values.{values_noted, ValuesAsked, ValuesAnswered};

use directory_duplicates::{Claim, MARKS, Ruling, note, ruled};
use rules::Format;
use rules::refusals::Refusal;
use sheet_form::columns::value_columns;
use sheet_kind::{Kind, is};
use sheet_line::{Line, Taken};
use tables::held::{HELD, PLACE, SIZE};

// The last entry: its number, its line, and the row of its first value.
#[derive(Drop)]
pub struct Current {
    pub number: usize,
    pub line: Line,
    pub first: usize,
}

// An entry's value lines: what stands after them with its position, the number of marks, whether the naming value was found
// among the values, and the row after the last value.
#[derive(Drop)]
pub struct ValueLines {
    pub at: usize,
    pub taken: Taken,
    pub marks: usize,
    pub found: bool,
    pub to: usize,
}

// The first owner of values; those before it are the owners of entry lines.
const VALUE_OWNERS: usize = 257;

// A value line of entry `number`, after a value of type `last`, of rank `from`; 0 and 0 before the first. `top` is the highest type.
fn value_line(
    s: &[u8],
    top: u64,
    schema: &[u64],
    marks: &[usize; MARKS],
    number: usize,
    last: u64,
    from: usize,
    line: Line,
) -> Result<Ruling, Refusal>
    requires { ValueSought s.now schema.now marks.now line × (number ≤ 256) × (last ≤ line.a → from ≤ rank_in schema.now line.a) × (line.kind ≡ number_of Kinds.Value) }
    ensures { Decides s.now schema.now marks.now (value_ruling top number last line) (ruling_noted result) }
{
    if !value_columns(line, top) {
        return Err(Refusal::NotAllowed);
    }
    if line.a < last {
        return Err(Refusal::OutOfOrder);
    }
    let rank = name::rank(schema, from, line.a);
    let owner = VALUE_OWNERS + number;
    let c = Claim {
        owner,
        rank,
        place: line.place,
        length: line.length,
    };
    ruled(s, schema, marks, c)
}

// Whether the naming value of an entry is among its values, with the one that `line` brings.
fn holding(s: &[u8], schema: &[u64], rank: usize, naming: Line, found: bool, line: Line) -> bool
    requires { (rank < length schema.now) × (naming.place + naming.length ≤ length s.now) × (line.place + line.length ≤ length s.now) }
    ensures { result ≡ (found || (eqb naming.b line.a && Value.same (get_or schema.now rank 0 % 4) (bytes_of s.now naming) (bytes_of s.now line))) }
{
    if found {
        return true;
    }
    if naming.b != line.a {
        return false;
    }
    let k = schema[rank];
    value_syntax::same(
        k % 4,
        sheet_line::bytes(s, naming),
        sheet_line::bytes(s, line),
    )
}

// Row `i` of the values held.
fn put_row(held: &mut [u64; HELD], i: usize, rank: usize, line: Line)
    requires { (i < ROWS) × (length held.old ≡ HELD) }
    ensures { held.new ≡ written held.old i rank line.place line.length }
{
    held[i] = rank as u64;
    held[PLACE + i] = line.place as u64;
    held[SIZE + i] = line.length as u64;
}

// The value lines after the line of `e`, each with its row.
pub fn values(
    s: &[u8],
    f: Format,
    schema: &[u64],
    e: Current,
    marked: usize,
    marks: &mut [usize; MARKS],
    held: &mut [u64; HELD],
) -> Result<ValueLines, Refusal>
    requires { ValuesAsked f s.now schema.now marks.old held.old marked e }
    ensures { ValuesAnswered f s.now schema.now marks.old held.old marked e marks.new held.new (values_noted result) }
{
    let mut n = marked;
    let mut to = e.first;
    let mut found = false;
    let mut last: u64 = 0;
    let mut from: usize = 0;
    let mut at = e.line.next;
    loop {
        let taken = sheet_line::take(s, at, f.width);
        let Taken::Line(line) = taken else {
            return Ok(ValueLines {
                at,
                taken,
                marks: n,
                found,
                to,
            });
        };
        if !is(line.kind, Kind::Value) {
            return Ok(ValueLines {
                at,
                taken,
                marks: n,
                found,
                to,
            });
        }
        let x = value_line(s, f.top, schema, marks, e.number, last, from, line)?;
        found = holding(s, schema, x.rank, e.line, found, line);
        put_row(held, to, x.rank, line);
        note(marks, n, x);
        n += 1;
        to += 1;
        last = line.a;
        from = x.rank;
        at = line.next;
    }
}
