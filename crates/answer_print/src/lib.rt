// A plan written, line by line, each only where it fits: over an empty part of the buffer it tells the length of the answer.
#![tactic(auto)]

mod entries;

ghost use Rattle.std.specs.Prelude.{◌≡◌, ◌+◌, ◌*◌, ◌≤◌, List, length};
ghost use Rattle.rules.specs.Sheet as Sheet;
ghost use Rattle.rules.specs.Directory.{Stored};
ghost use Rattle.rules.specs.Decision.{Setting};
ghost use Rattle.rules.specs.Request.{Selection};
ghost use Rattle.rules.specs.Answer.{outcome_number};
ghost use Rattle.rules.specs.Serve.{fitting};
ghost use Rattle.answer_reply.specs.Reply.{Replies};
ghost use Rattle.tables.specs.Book as Book;
ghost use Rattle.tables.specs.Book.{width};
ghost use Rattle.tables.specs.World.{World, Known};
ghost use Rattle.answer_line.specs.Emit.{Emits};
ghost use Rattle.answer_line.specs.Room.{answer_room, found_room};
ghost use Rattle.tables.specs.Plan.{success_lines, planned};
ghost use Rattle.tables.specs.Sound.{SoundPlan};
ghost use Rattle.tables.specs.Choice.{Chooses, KnownChoice};

use answer_line::emit;
use answer_name::emit_name;
use answer_reply::{Reply, refused};
use entries::{emit_children, emit_found, emit_matches};
use rules::refusals::{Refusal, refusal_number};
use rules::{Outcome, operation};
use sheet_kind::Kind;
use tables::book::{BOOK, WIDTH};
use tables::held::HELD;
use tables::plan::{Choice, Plan};
use tables::sets::SETS;

// The number of an outcome.
fn outcome_number(outcome: Outcome) -> u64
    ensures { result ≡ outcome_number outcome }
{
    outcome as u64
}

// What follows line 30 of a result, by the operation.
fn emit_success(
    out: &mut [u8],
    at: usize,
    book: &[u64; BOOK],
    held: &[u64; HELD],
    sets: &[u64; SETS],
    d: &[u8],
    p: &[u8],
    plan: Plan,
    hits: &[usize; 256],
    choice: Choice,
) -> usize
    requires { Known d.now p.now book.now held.now sets.now × SoundPlan (Book.entry_count book.now) plan hits.now × (at + 256 * found_room ≤ answer_room) × KnownChoice (Book.schema book.now) choice }
    ensures { (σ : Setting) (es : List Stored) (s : Selection) → World σ es d.now p.now book.now held.now sets.now → Chooses (Book.schema book.now) s choice → Emits (width book.now) out.old at (success_lines σ es s plan hits.now) out.new result }
{
    if plan.operation == operation::READ {
        return emit_found(
            out, at, book, held, sets, d, p, choice, plan.name, plan.entry,
        );
    }
    if plan.operation == operation::COMPARE {
        let w = book[WIDTH] as usize;
        return emit(out, at, w, Kind::Comparison, plan.equal, 0, 0, b"");
    }
    let found: &[usize] = hits;
    let shown = plan.shown;
    if plan.operation == operation::LIST {
        return emit_children(out, at, book, d, &found[0..shown]);
    }
    emit_matches(out, at, book, held, sets, d, p, choice, &found[0..shown])
}

// The whole answer.
pub fn print(
    out: &mut [u8],
    book: &[u64; BOOK],
    held: &[u64; HELD],
    sets: &[u64; SETS],
    d: &[u8],
    p: &[u8],
    plan: Plan,
    hits: &[usize; 256],
    choice: Choice,
) -> usize
    requires { Known d.now p.now book.now held.now sets.now × SoundPlan (Book.entry_count book.now) plan hits.now × KnownChoice (Book.schema book.now) choice }
    ensures { (σ : Setting) (es : List Stored) (s : Selection) → World σ es d.now p.now book.now held.now sets.now → Chooses (Book.schema book.now) s choice → Emits (width book.now) out.old 0 (planned σ es s plan hits.now) out.new result }
{
    let w = book[WIDTH] as usize;
    let outcome = plan.outcome;
    let next = emit(
        out,
        0,
        w,
        Kind::Outcome,
        plan.operation,
        outcome_number(outcome),
        plan.more,
        b"",
    );
    match outcome {
        Outcome::Result => emit_success(out, next, book, held, sets, d, p, plan, hits, choice),
        Outcome::NoSuchObject => emit_name(out, next, book, d, plan.name),
        Outcome::InsufficientAccessRights => next,
        Outcome::NoSuchAttributeOrValue => next,
        Outcome::InvalidAttributeSyntax => next,
        Outcome::AliasProblem => next,
    }
}

// The answer's length, by a run over an empty part of the buffer; then refusal 31 if it does not fit, else its bytes.
pub fn write(
    out: &mut [u8],
    book: &[u64; BOOK],
    held: &[u64; HELD],
    sets: &[u64; SETS],
    d: &[u8],
    p: &[u8],
    plan: Plan,
    hits: &[usize; 256],
    choice: Choice,
) -> Reply
    requires { Known d.now p.now book.now held.now sets.now × SoundPlan (Book.entry_count book.now) plan hits.now × KnownChoice (Book.schema book.now) choice }
    ensures { (σ : Setting) (es : List Stored) (s : Selection) → World σ es d.now p.now book.now held.now sets.now → Chooses (Book.schema book.now) s choice → Replies (fitting (length out.old) (Sheet.print (width book.now) (planned σ es s plan hits.now))) out.old result out.new }
{
    let n = print(&mut out[0..0], book, held, sets, d, p, plan, hits, choice);
    if out.len() < n {
        return refused(refusal_number(Refusal::BufferTooShort));
    }
    let m = print(out, book, held, sets, d, p, plan, hits, choice);
    Reply {
        refusal: 0,
        length: m as u64,
    }
}
