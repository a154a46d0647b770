// One line of a sheet, at a position, and its bytes as a part of the sheet. The width of a column is a parameter.
#![tactic(auto)]

ghost use Rattle.std.specs.Prelude.{◌≡◌, ◌+◌, ◌≤◌, ◌<◌, drop};
ghost use Rattle.std.proofs.Math.ListN as ListN;
ghost use Rattle.rules.specs.Sheet.{front_of};
ghost use Rattle.sheet_line.specs.Line.{place_of, taken_at, bytes_of};

use rules::Front;
use sheet_frame::front;

// A line: its numbers, the position and the length of its bytes, and the position after it.
#[derive(Clone, Copy)]
pub struct Line {
    pub kind: u64,
    pub a: u64,
    pub b: u64,
    pub c: u64,
    pub place: usize,
    pub length: usize,
    pub next: usize,
}

// What stands at a position: a line, no line in form, or nothing. Three cases of one rank, as in `Front`.
#[derive(Clone, Copy)]
pub enum Taken {
    Line(Line),
    NotInForm,
    End,
}

// What stands at the front of the part that begins at `at`; beyond the sheet's last byte, its end.
fn front_at(s: &[u8], at: usize, w: usize) -> Front
    requires { w ≤ 18 }
    ensures { result ≡ front_of w (drop at s.now) }
{
    if at < s.len() {
        return front(&s[at..], w);
    }
    Front::End
}

// Where the bytes of the line at the position `at` begin: after its columns.
pub fn place(at: usize, w: usize) -> usize
    requires { place_of w at < 18446744073709551616 }
    ensures { result ≡ place_of w at }
{
    at + 5 * w
}

// Where the next line begins: after the bytes and byte 10.
fn after(place: usize, length: usize) -> usize
    requires { place + length < 18446744073709551615 }
    ensures { result ≡ place + length + 1 }
{
    place + length + 1
}

// The line at the position `at`, with the positions that follow from it.
pub fn take(s: &[u8], at: usize, w: usize) -> Taken
    requires { w ≤ 18 }
    ensures { result ≡ taken_at w s.now at }
{
    match front_at(s, at, w) {
        Front::Taken {
            kind,
            a,
            b,
            c,
            length,
        } => {
            let place = place(at, w);
            Taken::Line(Line {
                kind,
                a,
                b,
                c,
                place,
                length,
                next: after(place, length),
            })
        }
        Front::NotInForm => Taken::NotInForm,
        Front::End => Taken::End,
    }
}

// The line, made anew of its numbers one by one. A copy right after they were written one by one would wait for them.
pub fn anew(line: Line) -> Line
    requires { line.next ≡ line.place + line.length + 1 }
    ensures { result ≡ line }
{
    let place = line.place;
    let length = line.length;
    Line {
        kind: line.kind,
        a: line.a,
        b: line.b,
        c: line.c,
        place,
        length,
        next: after(place, length),
    }
}

// The bytes of a line, as a part of the sheet.
pub fn bytes(s: &[u8], line: Line) -> &[u8]
    requires { line.place + line.length ≤ ListN.length s.now }
    ensures { result.now ≡ bytes_of s.now line }
{
    part(s, line.place, line.length)
}

// `length` bytes from `place` on, as a part of the sheet.
pub fn part(s: &[u8], place: usize, length: usize) -> &[u8]
    requires { place + length ≤ ListN.length s.now }
    ensures { result.now ≡ ListN.take length (drop place s.now) }
{
    let end = place + length;
    &s[place..end]
}
