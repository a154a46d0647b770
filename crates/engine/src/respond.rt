// A request answered over a ground: the request judged, the sets of the items that are for the requester, the name looked up, the answer planned and
// written.
ghost use Rattle.std.specs.Prelude.{◌≡◌, List, map, ℕ, length, replicate};
ghost use Rattle.rules.specs.Sheet.{print};
ghost use Rattle.rules.specs.Judge.{Grammar};
ghost use Rattle.rules.specs.Directory.{Stored, entry_of};
ghost use Rattle.rules.specs.Decision.{Setting};
ghost use Rattle.rules.specs.Request.{Request};
ghost use Rattle.rules.specs.Answer.{answer_to};
ghost use Rattle.rules.specs.Serve.{Ground, fitting};
ghost use Rattle.answer_reply.specs.Reply.{Replies};
ghost use Rattle.request_sheet.specs.Noted.{RequestNoted};
ghost use Rattle.name.specs.Schema.{Rising};
ghost use Rattle.tables.specs.Book.{width};
ghost use Rattle.tables.specs.Book as Book;
ghost use Rattle.tables.specs.Sets as Sets;
ghost use Rattle.tables.specs.World.{World, Entries, Known};
ghost use Rattle.access_scope.specs.Scopes.{Asker};
ghost use Rattle.tables.specs.Plan.{aliases_of};
ghost use Rattle.access_items.specs.Sorted.{Sorted};
ghost use Rattle.engine.specs.Serve.{from_ground};
ghost use Rattle.engine.specs.Judges.{GroundAt};

use super::Terms;
use access_covers::note_rights;
use access_scope::{Requester, reach_all};
use answer_choice::choice_of;
use answer_operation::plan_of;
use answer_print::write;
use answer_reply::{Reply, refused};
use caller::within;
use permission_sheet::{ALL_RIGHTS, ALL_SCOPES};
use request_sheet::Asked;
use rules::refusals::refusal_number;
use tables::book::{BOOK, parents, schema};
use tables::held::HELD;
use tables::sets::SETS;

// The answer, once the tables are filled.
fn respond(
    out: &mut [u8],
    book: &[u64; BOOK],
    held: &[u64; HELD],
    sets: &[u64; SETS],
    d: &[u8],
    p: &[u8],
    q: &[u8],
    asked: Asked,
) -> Reply
    requires { Known d.now p.now book.now held.now sets.now × ((G : Grammar) × (x : Request) × RequestNoted G (width book.now) q.now x asked) }
    ensures { (σ : Setting) (es : List Stored) (G : Grammar) (x : Request) → World σ es d.now p.now book.now held.now sets.now → RequestNoted G (width book.now) q.now x asked → Replies (fitting (length out.old) (print (width book.now) (answer_to σ (map entry_of es) (aliases_of σ es) x.base x.operation))) out.old result out.new }
{
    let choice = choice_of(book, q, asked);
    let mut hits: [usize; 256] = [0; 256];
    let plan = plan_of(book, held, sets, d, p, q, asked, choice, &mut hits);
    write(out, book, held, sets, d, p, plan, &hits, choice)
}

// The sets of the items that are for the requester. `order` has the items' numbers in order of weight.
fn note_sets(
    book: &[u64; BOOK],
    d: &[u8],
    p: &[u8],
    q: &[u8],
    rights: &[u64; ALL_RIGHTS],
    scopes: &[u64; ALL_SCOPES],
    order: &[usize],
    who: Requester,
    sets: &mut [u64; SETS],
)
    requires { (sets.old ≡ replicate Sets.SETS 0) × Rising 0 (Book.schema book.now) × ((σ : Setting) × (es : List Stored) × (held : List ℕ) × Entries σ es d.now book.now held × Asker σ (width book.now) q.now who × Sorted (width book.now) p.now σ.items rights.now scopes.now order.now) }
    ensures { (σ : Setting) (es : List Stored) (held : List ℕ) → Entries σ es d.now book.now held → Asker σ (width book.now) q.now who → Sorted (width book.now) p.now σ.items rights.now scopes.now order.now → World σ es d.now p.now book.now held sets.new }
{
    let mut reach: [usize; 256] = [0; 256];
    reach_all(book, d, p, rights, scopes, q, who, order.len(), &mut reach);
    note_rights(rights, schema(book), order, &reach, parents(book), sets);
}

// The answer over a ground: the request judged, asked within the limits, what the requester may, and the reply.
pub fn requested(
    out: &mut [u8],
    book: &[u64; BOOK],
    held: &[u64; HELD],
    d: &[u8],
    p: &[u8],
    q: &[u8],
    rights: &[u64; ALL_RIGHTS],
    scopes: &[u64; ALL_SCOPES],
    order: &[usize],
    terms: Terms,
) -> Reply
    requires { (g : Ground) × GroundAt terms.format d.now p.now g book.now held.now rights.now scopes.now order.now }
    ensures { (g : Ground) → GroundAt terms.format d.now p.now g book.now held.now rights.now scopes.now order.now → Replies (from_ground terms.format terms.limits g q.now (length out.old)) out.old result out.new }
{
    let judged = match request_sheet::judge(q, terms.format, schema(book)) {
        Ok(asked) => asked,
        Err(refusal) => return refused(refusal_number(refusal)),
    };
    let asked = within(judged, terms.limits);
    let who = Requester {
        level: asked.level,
        place: asked.requester,
        parts: asked.requester_parts,
    };
    let mut sets: [u64; SETS] = [0; SETS];
    note_sets(book, d, p, q, rights, scopes, order, who, &mut sets);
    respond(out, book, held, &sets, d, p, q, asked)
}
