// The directory sheet judged line by line: the refusal that the rules give, or what later steps need of the sheet,
// noted on the way: the schema as numbers, each entry line's position, parent, naming type and length, the values that each entry holds, and
// where the target of an alias stands.
#![tactic(auto)]

ghost use Rattle.std.specs.Prelude.{◌≡◌, cond, ◌+◌, ◌<◌};
ghost use Rattle.rules.specs.Sheet.{Usable};
ghost use Rattle.tables.specs.Held.{none_held};
ghost use Rattle.rules.specs.Refusals.{refusal_in};
ghost use Rattle.directory_sheet.specs.Judged.{nothing_noted, DirectoryJudged};
ghost use Rattle.directory_sheet.specs.Entries.{Opened, end_number, EntriesJudged, with_notes};

use directory_duplicates::MARKS;
use directory_entry::DEPTHS;
use rules::Format;
use rules::refusals::Refusal;
use sheet_line::Taken;
use tables::book::FIRST_ROWS;
use tables::held::HELD;

// What is noted; `first` has the row of each entry's first value, and then the row after the last value; `targets` has 0, or where
// the K 9 lines of an alias's target begin, times 16, and how many they are.
#[derive(Drop)]
pub struct Notes {
    pub types: usize,
    pub schema: [u64; 64],
    pub count: usize,
    pub at: [usize; 256],
    pub parents: [usize; 256],
    pub naming: [u64; 256],
    pub lengths: [usize; 256],
    pub first: [usize; FIRST_ROWS],
    pub targets: [u64; 256],
}

// Nothing noted.
fn blank() -> Notes
    ensures { result ≡ nothing_noted }
{
    Notes {
        types: 0,
        schema: [0; 64],
        count: 0,
        at: [0; 256],
        parents: [0; 256],
        naming: [0; 256],
        lengths: [0; 256],
        first: [0; FIRST_ROWS],
        targets: [0; 256],
    }
}

// A place where no line stands: refused or not. Not one function with `directory_alias`'s `absent`, by which the sheet's end is always refused.
fn ended(taken: Taken, lacks: bool) -> Result<(), Refusal>
    ensures { refusal_in result ≡ end_number taken lacks }
{
    match taken {
        Taken::Line(_) => Err(Refusal::NotAllowed),
        Taken::NotInForm => Err(Refusal::NotAllowed),
        Taken::End => {
            if lacks {
                return Err(Refusal::NamingValueNotHeld);
            }
            Ok(())
        }
    }
}

// The depth of an entry below one of depth `above`; 8 for an alias, since it has no children.
fn level(above: usize, alias: bool) -> usize
    requires { above < 8 }
    ensures { result ≡ cond alias 8 (above + 1) }
{
    if alias {
        return 8;
    }
    above + 1
}

// The entries, from the line `first` at `from` on. They are noted where the notes stand: some 12,800 bytes are not copied. With a refusal, what was
// noted before it is left in `notes` and `held`.
fn entries(
    s: &[u8],
    f: Format,
    schema: &[u64],
    from: usize,
    first: Taken,
    notes: &mut Notes,
    held: &mut [u64; HELD],
) -> Result<(), Refusal>
    requires { Opened f s.now schema.now notes.old held.old from first }
    ensures { EntriesJudged f s.now (with_notes result notes.new) held.new }
{
    let mut depths: [usize; DEPTHS] = [0; DEPTHS];
    let mut marks: [usize; MARKS] = [0; MARKS];
    let mut n: usize = 0;
    let mut lacks = false;
    let mut at = from;
    let mut taken = first;
    loop {
        let Taken::Line(line) = taken else {
            ended(taken, lacks)?;
            return Ok(());
        };
        let count = notes.count;
        let x = directory_entry::entry_line(s, f.top, schema, &depths, &marks, count, lacks, line)?;
        directory_duplicates::note(&mut marks, n, x);
        let e = directory_values::Current {
            number: count + 1,
            line,
            first: notes.first[count],
        };
        let run = directory_values::values(s, f, schema, e, n + 1, &mut marks, held)?;
        let alias = line.c == 1;
        let next = run.taken;
        let last = directory_alias::Last {
            number: count + 1,
            alias,
            lacks: !run.found,
            at: run.at,
            taken: next,
        };
        let t = directory_alias::target(s, f, schema, last)?;
        let p = line.a as usize;
        notes.at[count] = at;
        notes.parents[count] = p;
        notes.naming[count] = line.b;
        notes.lengths[count] = line.length;
        notes.first[count + 1] = run.to;
        notes.targets[count] = t.target;
        notes.count = count + 1;
        depths[count + 1] = level(depths[p], alias);
        at = t.at;
        taken = t.taken;
        n = run.marks;
        lacks = !run.found;
    }
}

// The whole sheet, and in `held`, where no value is at first, a row for each value; none with a refusal.
pub fn judge(s: &[u8], f: Format, held: &mut [u64; HELD]) -> Result<Notes, Refusal>
    requires { Usable f × (held.old ≡ none_held) }
    ensures { DirectoryJudged f s.now result held.new }
{
    if 65536 < s.len() {
        return Err(Refusal::TooLong);
    }
    let t = directory_schema::types(s, f)?;
    let types = t.count;
    let schema = t.schema;
    let mut notes = blank();
    notes.types = types;
    notes.schema = schema;
    let taken = t.taken;
    match entries(s, f, &schema[0..types], t.at, taken, &mut notes, held) {
        Ok(()) => Ok(notes),
        Err(refusal) => {
            *held = [0; HELD];
            Err(refusal)
        }
    }
}
