// A directory sheet moved to the other form (#109): judged in its own form, then each of its lines written in columns of the other width.
#![tactic(auto)]

mod lines;

ghost use Rattle.std.specs.Prelude.{◌≡◌, length};
ghost use Rattle.rules.specs.Sheet.{Usable};
ghost use Rattle.rules.specs.Places.{schema_of};
ghost use Rattle.rules.specs.Move as Move;
ghost use Rattle.answer_reply.specs.Reply.{Replies};
ghost use Rattle.directory_move.specs.Movable.{Movable};

use answer_reply::{Reply, refused};
use rules::Format;
use rules::refusals::{Refusal, refusal_number};
use tables::held::HELD;

// Is a type of the schema above `top`?
fn beyond(schema: &[u64], top: u64) -> bool
    ensures { result ≡ Move.beyond top (schema_of schema.now) }
{
    schema.iter().any(|k| top < *k / 4)
}

// How long the sheet `s` is when moved from one form to another, into a buffer of length `room`.
fn movable(s: &[u8], from: Format, to: Format, room: usize) -> Result<usize, Refusal>
    requires { Usable from × Usable to }
    ensures { Movable from to s.now room result }
{
    let mut held: [u64; HELD] = [0; HELD];
    let notes = directory_sheet::judge(s, from, &mut held)?;
    let types = notes.types;
    let schema = notes.schema;
    if beyond(&schema[0..types], to.top) {
        return Err(Refusal::TypeTooHigh);
    }
    let length = lines::measured(s, from.width, to.width);
    if room < length {
        return Err(Refusal::MovedTooLong);
    }
    if 65536 < length {
        return Err(Refusal::MovedTooLong);
    }
    Ok(length)
}

// The reply to a move of the sheet `s` from one form to another, and the moved sheet in `out`.
pub fn moved(s: &[u8], from: Format, to: Format, out: &mut [u8]) -> Reply
    requires { Usable from × Usable to }
    ensures { Replies (Move.moved from to s.now (length out.old)) out.old result out.new }
{
    match movable(s, from, to, out.len()) {
        Ok(length) => {
            lines::rewritten(s, from.width, to.width, out);
            Reply {
                refusal: 0,
                length: length as u64,
            }
        }
        Err(refusal) => refused(refusal_number(refusal)),
    }
}
