// The pieces of a substrings item in a request's filter, one line each, with the lines that are still allowed counted down.
#![tactic(auto)]

ghost use Rattle.std.specs.Prelude.{◌≡◌, true};
ghost use Rattle.rules.specs.Sheet.{Usable};
ghost use Rattle.rules.specs.Request.{request_grammar};
ghost use Rattle.request_piece.specs.Progress.{progress_of};
ghost use Rattle.request_piece.specs.Pieces.{in_place, piece_of, piece_by, piece_at, pieces_at};

use rules::Format;
use rules::refusals::Refusal;
use sheet_due::{Seen, seen_at};
use sheet_kind::{Kind, is};
use sheet_line::Line;

// How far a part of a filter was read: up to `next`, with `left` more lines allowed.
#[derive(Clone, Copy)]
pub struct Step {
    pub next: usize,
    pub left: u64,
}

// A piece of place `a`: an initial one is the first, a final one has none after it.
fn in_place(a: u64, first: bool, after: u64) -> bool
    ensures { result ≡ in_place a first after }
{
    match a {
        0 => first,
        2 => after == 0,
        _ => true,
    }
}

// An allowed line where a piece is due.
fn piece_of(first: bool, after: u64, left: u64, line: Line) -> Result<Step, Refusal>
    ensures { progress_of result ≡ piece_of 20 first after left line }
{
    if !is(line.kind, Kind::Piece) {
        return Err(Refusal::RequestOutOfOrder);
    }
    if in_place(line.a, first, after) {
        Ok(Step {
            next: line.next,
            left,
        })
    } else {
        Err(Refusal::RequestOutOfOrder)
    }
}

// What was seen where a piece is due.
fn piece_by(first: bool, after: u64, left: u64, seen: Seen) -> Result<Step, Refusal>
    ensures { progress_of result ≡ piece_by 20 first after left seen }
{
    match seen {
        Seen::Line(line) => {
            if left == 0 {
                Err(Refusal::RequestOutOfOrder)
            } else {
                piece_of(first, after, left - 1, line)
            }
        }
        Seen::NotAllowed => Err(Refusal::RequestNotAllowed),
        Seen::Missing => Err(Refusal::RequestOutOfOrder),
    }
}

// A piece at a position, with `after` pieces after it.
fn piece_at(
    q: &[u8],
    at: usize,
    f: Format,
    first: bool,
    after: u64,
    left: u64,
) -> Result<Step, Refusal>
    requires { Usable f }
    ensures { progress_of result ≡ piece_at (request_grammar f.top) f.width q.now first after at left }
{
    piece_by(first, after, left, seen_at(q, f, at))
}

// `count` pieces from a position on.
pub fn pieces_at(q: &[u8], at: usize, f: Format, count: u64, left: u64) -> Result<Step, Refusal>
    requires { Usable f }
    ensures { progress_of result ≡ pieces_at (request_grammar f.top) f.width q.now true count at left }
{
    let mut step = Step { next: at, left };
    let mut first = true;
    for after in (0..count).rev() {
        step = piece_at(q, step.next, f, first, after, step.left)?;
        first = false;
    }
    Ok(step)
}
