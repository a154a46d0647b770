// A request answered: the room that is lent, then the directory and the permissions judged, which is the ground; then the request; then its answer is planned, its length known, and
// only then its bytes are written.
#![tactic(auto)]

mod respond;

ghost use Rattle.std.specs.Prelude.{length, ℕ};
ghost use Rattle.rules.specs.Sheet.{Usable};
ghost use Rattle.rules.specs.Directory.{Directory};
ghost use Rattle.rules.specs.Serve.{judged_at, serve_at};
ghost use Rattle.answer_reply.specs.Reply.{Replies};
ghost use Rattle.engine.specs.Serve.{from_directory};
ghost use Rattle.engine.specs.Judges.{DirectoryAt};

use access_items::rank_items;
use answer_reply::{Reply, refused};
use caller::above;
use permission_sheet::{ALL_RIGHTS, ALL_SCOPES};
use respond::requested;
use rules::refusals::{Refusal, refusal_number};
use rules::{Format, Limits};
use tables::book::{BOOK, schema};
use tables::held::HELD;

// What a call is served under: the format of its sheets, and what its program is limited to.
#[derive(Drop)]
pub struct Terms {
    pub format: Format,
    pub limits: Limits,
}

// The answer over an accepted directory: permissions come next, their items in order of weight, and the ground is laid.
fn permitted(
    out: &mut [u8],
    book: &[u64; BOOK],
    held: &[u64; HELD],
    d: &[u8],
    p: &[u8],
    q: &[u8],
    terms: Terms,
) -> Reply
    requires { (x : Directory) × DirectoryAt terms.format d.now x book.now held.now }
    ensures { (x : Directory) → DirectoryAt terms.format d.now x book.now held.now → Replies (from_directory terms.format terms.limits x p.now q.now (length out.old)) out.old result out.new }
{
    let mut rights: [u64; ALL_RIGHTS] = [0; ALL_RIGHTS];
    let mut scopes: [u64; ALL_SCOPES] = [0; ALL_SCOPES];
    let items = permission_sheet::judge(p, terms.format, schema(book), &mut rights, &mut scopes);
    let count = match items {
        Ok(count) => count,
        Err(refusal) => return refused(refusal_number(refusal)),
    };
    let mut order: [usize; 256] = [0; 256];
    rank_items(&rights, count, &mut order);
    requested(
        out,
        book,
        held,
        d,
        p,
        q,
        &rights,
        &scopes,
        &order[0..count],
        terms,
    )
}

// The reply to the request `q` over the directory `d` and the permissions `p`, and the answer in `out`, which is not above the limits.
fn judged(d: &[u8], p: &[u8], q: &[u8], out: &mut [u8], terms: Terms) -> Reply
    requires { Usable terms.format }
    ensures { Replies (judged_at terms.format terms.limits d.now p.now q.now (length out.old)) out.old result out.new }
{
    let mut held: [u64; HELD] = [0; HELD];
    let notes = match directory_sheet::judge(d, terms.format, &mut held) {
        Ok(notes) => notes,
        Err(refusal) => return refused(refusal_number(refusal)),
    };
    let mut book: [u64; BOOK] = [0; BOOK];
    directory_book::note(terms.format, notes, &mut book);
    permitted(out, &book, &held, d, p, q, terms)
}

// The reply to the request `q` over the directory `d` and the permissions `p`, on these terms, and the answer in `out`.
pub fn serve(d: &[u8], p: &[u8], q: &[u8], out: &mut [u8], terms: Terms) -> Reply
    requires { Usable terms.format }
    ensures { Replies (serve_at terms.format terms.limits d.now p.now q.now (length out.old)) out.old result out.new }
{
    if above(terms.limits, out.len()) {
        return refused(refusal_number(Refusal::PanelBufferTooLong));
    }
    judged(d, p, q, out, terms)
}
