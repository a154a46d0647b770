// A filter's lines, read once and noted by six numbers each.
ghost use Rattle.std.specs.Prelude.{◌≡◌, ◌+◌, ◌*◌, ◌≤◌, ◌<◌, length};
ghost use Rattle.filter_lines.specs.Lines as Lines;
ghost use Rattle.filter_lines.specs.Lines.{LinesNoted, Typed, Beyond, position_at, value_place, next_position, line_value, noted};

use sheet_line::{Line, Taken};

// The numbers of a line: kind, A, B, where the line begins, where its bytes begin, and the rank of type A in the schema. The bytes end before the last
// byte of the line, and the next line follows it.
pub const LINE: usize = 6;

pub const FIRST: usize = 1;

pub const SECOND: usize = 2;

pub const POSITION: usize = 3;

pub const PLACE: usize = 4;

pub const RANK: usize = 5;

// How many lines there can be, and how many numbers are noted of them.
pub const LINES: usize = 265;

pub const FILTER: usize = 1596;

// Notes a line in the row that begins at `at`, but for its position, and the position of the next.
fn note_line(rows: &mut [u64; FILTER], at: usize, x: Line, rank: usize)
    requires { at + 12 ≤ Lines.FILTER }
    ensures { rows.new ≡ noted rows.old at x.kind x.a x.b x.place rank x.next }
{
    rows[at] = x.kind;
    rows[at + FIRST] = x.a;
    rows[at + SECOND] = x.b;
    rows[at + PLACE] = x.place as u64;
    rows[at + RANK] = rank as u64;
    rows[at + (LINE + POSITION)] = x.next as u64;
}

// Notes the lines of `q` from position `at` on; how many they are. There is room for one row more.
pub fn note(schema: &[u64], w: usize, q: &[u8], at: usize, rows: &mut [u64; FILTER]) -> usize
    requires { (w ≤ 18) × (length q.now ≤ (5 * w + 1) * Lines.LINES) × (length rows.old ≡ Lines.FILTER) }
    ensures { LinesNoted w q.now rows.new result × Typed schema.now rows.new result × (position_at rows.new 0 ≡ at) × Beyond result rows.old rows.new }
{
    rows[POSITION] = at as u64;
    let mut n: usize = 0;
    let mut j = at;
    loop {
        match sheet_line::take(q, j, w) {
            Taken::Line(x) => {
                note_line(rows, n * LINE, x, name::rank(schema, 0, x.a));
                n += 1;
                j = x.next;
            }
            Taken::NotInForm => {
                return n;
            }
            Taken::End => {
                return n;
            }
        }
    }
}

// The bytes of line `k`, as a part of the request.
pub fn value_of<'a>(q: &'a [u8], rows: &[u64; FILTER], k: usize) -> &'a [u8]
    requires { (k * 6 + 10 ≤ Lines.FILTER) × (value_place rows.now k < next_position rows.now k) × (next_position rows.now k ≤ length q.now) }
    ensures { result.now ≡ line_value q.now rows.now k }
{
    let at = k * LINE;
    let place = rows[at + PLACE] as usize;
    let next = rows[at + (LINE + POSITION)] as usize;
    &q[place..next - 1]
}
