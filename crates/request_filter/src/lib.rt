// A filter of a request, an operator before its parts: read line by line, each line once, with the depth and the lines that
// are still allowed counted down.
#![tactic(auto)]

ghost use Rattle.std.specs.Prelude.{◌≡◌};
ghost use Rattle.rules.specs.Sheet.{Usable};
ghost use Rattle.rules.specs.Request.{request_grammar};
ghost use Rattle.request_piece.specs.Progress.{progress_of};
ghost use Rattle.request_filter.specs.Node.{node_in};
ghost use Rattle.request_filter.specs.Filters.{node_of, node_by, node_at, filter_at};

use request_piece::{Step, pieces_at};
use rules::Format;
use rules::refusals::Refusal;
use sheet_due::{Seen, misplaced_by, seen_at};
use sheet_kind::{Kind, kind_of};
use sheet_line::Line;

// What a line of a filter begins, and how far it was read: an operator with its number of parts, "not" having one, or an item.
#[derive(Drop)]
pub enum Node {
    Operator { count: u64, step: Step },
    Item(Step),
}

// By the kind of a filter's line.
fn node_of(q: &[u8], f: Format, left: u64, line: Line) -> Result<Node, Refusal>
    requires { Usable f }
    ensures { node_in result ≡ node_of (request_grammar f.top) f.width q.now left line }
{
    let step = Step {
        next: line.next,
        left,
    };
    match kind_of(line.kind) {
        Kind::And => Ok(Node::Operator {
            count: line.a,
            step,
        }),
        Kind::Or => Ok(Node::Operator {
            count: line.a,
            step,
        }),
        Kind::Not => Ok(Node::Operator { count: 1, step }),
        Kind::Equality => Ok(Node::Item(step)),
        Kind::AtLeast => Ok(Node::Item(step)),
        Kind::AtMost => Ok(Node::Item(step)),
        Kind::Present => Ok(Node::Item(step)),
        Kind::Substrings => {
            let pieces = pieces_at(q, line.next, f, line.b, left)?;
            Ok(Node::Item(pieces))
        }
        _ => Err(Refusal::RequestOutOfOrder),
    }
}

// What was seen where a filter is due.
fn node_by(q: &[u8], f: Format, left: u64, seen: Seen) -> Result<Node, Refusal>
    requires { Usable f }
    ensures { node_in result ≡ node_by (request_grammar f.top) f.width q.now left seen }
{
    match seen {
        Seen::Line(line) => {
            if left == 0 {
                Err(Refusal::RequestOutOfOrder)
            } else {
                node_of(q, f, left - 1, line)
            }
        }
        Seen::NotAllowed => Err(Refusal::RequestNotAllowed),
        Seen::Missing => Err(Refusal::RequestOutOfOrder),
    }
}

// What a filter's line at a position begins.
fn node_at(q: &[u8], at: usize, f: Format, left: u64) -> Result<Node, Refusal>
    requires { Usable f }
    ensures { node_in result ≡ node_at (request_grammar f.top) f.width q.now at left }
{
    node_by(q, f, left, seen_at(q, f, at))
}

// The filter at a position, with `depth` more levels and `left` more lines allowed.
pub fn filter_at(q: &[u8], at: usize, f: Format, depth: u64, left: u64) -> Result<Step, Refusal>
    requires { Usable f }
    ensures { progress_of result ≡ filter_at (request_grammar f.top) f.width q.now depth at left }
{
    if depth == 0 {
        return Err(misplaced_by(seen_at(q, f, at)));
    }
    match node_at(q, at, f, left)? {
        Node::Item(step) => Ok(step),
        Node::Operator { count, step } => {
            let mut part = step;
            for _ in 0..count {
                part = filter_at(q, part.next, f, depth - 1, part.left)?;
            }
            Ok(part)
        }
    }
}
