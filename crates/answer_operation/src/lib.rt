// The plan of the answer, by the name and the operation that are asked for.
#![tactic(auto)]

ghost use Rattle.std.specs.Prelude.{◌≡◌, List, map, length};
ghost use Rattle.rules.specs.Name.{Name};
ghost use Rattle.rules.specs.Directory.{Stored, entry_of};
ghost use Rattle.rules.specs.Decision.{Setting};
ghost use Rattle.rules.specs.Judge.{Grammar};
ghost use Rattle.rules.specs.Request.{Request};
ghost use Rattle.rules.specs.Answer.{answer, answer_to};
ghost use Rattle.rules.specs.Aliases.{resolved};
ghost use Rattle.request_sheet.specs.Noted.{RequestNoted};
ghost use Rattle.tables.specs.Book.{width, entry_count};
ghost use Rattle.tables.specs.World.{World};
ghost use Rattle.tables.specs.Plan.{aliases_of, planned};
ghost use Rattle.tables.specs.Sound.{Base, SoundPlan};
ghost use Rattle.answer_choice.specs.Selected.{selection_of};
ghost use Rattle.answer_entry.specs.Passing.{over};
ghost use Rattle.answer_operation.specs.Hits.{found_by, found_for};
ghost use Rattle.answer_operation.specs.Posed.{Posed, KnownRequest, KnownSought};

use answer_compare::compare;
use answer_entry::Sought;
use answer_list::list;
use answer_read::read;
use answer_resolution::resolve_name;
use answer_search::{Query, search};
use request_sheet::Asked;
use rules::{Outcome, operation};
use tables::book::BOOK;
use tables::held::HELD;
use tables::plan::{Choice, Plan, refused};
use tables::sets::SETS;

// The plan of the answer about the sought; the indices of the entries that list and search find are noted in `hits`.
fn plan_at(
    book: &[u64; BOOK],
    held: &[u64; HELD],
    sets: &[u64; SETS],
    d: &[u8],
    p: &[u8],
    q: &[u8],
    asked: Asked,
    sought: Sought,
    choice: Choice,
    hits: &mut [usize; 256],
) -> Plan
    requires { KnownSought d.now p.now q.now book.now held.now sets.now asked sought choice × (length hits.old ≡ 256) }
    ensures { SoundPlan (entry_count book.now) result hits.new × ((σ : Setting) (es : List Stored) (G : Grammar) (x : Request) (n : Name) → Posed σ es G x d.now p.now q.now book.now held.now sets.now asked choice → Base σ es n sought.base sought.missing → planned σ es (selection_of x.operation) result hits.new ≡ answer σ (map entry_of es) (aliases_of σ es) n x.operation) × ((σ : Setting) (es : List Stored) (G : Grammar) (x : Request) → World σ es d.now p.now book.now held.now sets.now → RequestNoted G (width book.now) q.now x asked → hits.new ≡ over (found_by σ es sought.base x.operation) hits.old) }
{
    if asked.operation == operation::READ {
        return read(book, held, sets, d, p, choice, sought);
    }
    if asked.operation == operation::COMPARE {
        let v = sheet_line::part(q, asked.value, asked.length);
        return compare(book, held, sets, d, p, asked.attribute, v, sought);
    }
    if asked.operation == operation::LIST {
        return list(book, sets, sought, asked.limit, hits);
    }
    let edition = asked.edition;
    let query = Query {
        limit: asked.limit,
        order_type: asked.order_type,
        falling: asked.falling,
        subset: asked.subset,
        filter: asked.filter,
        edition,
    };
    search(book, held, sets, d, p, q, sought, query, hits)
}

// The plan of the answer. The name that is asked for is replaced while it begins with an alias's (#105); from then on the sought alone counts.
pub fn plan_of(
    book: &[u64; BOOK],
    held: &[u64; HELD],
    sets: &[u64; SETS],
    d: &[u8],
    p: &[u8],
    q: &[u8],
    asked: Asked,
    choice: Choice,
    hits: &mut [usize; 256],
) -> Plan
    requires { KnownRequest d.now p.now q.now book.now held.now sets.now asked choice × (length hits.old ≡ 256) }
    ensures { SoundPlan (entry_count book.now) result hits.new × ((σ : Setting) (es : List Stored) (G : Grammar) (x : Request) → Posed σ es G x d.now p.now q.now book.now held.now sets.now asked choice → (planned σ es (selection_of x.operation) result hits.new ≡ answer_to σ (map entry_of es) (aliases_of σ es) x.base x.operation) × (hits.new ≡ over (found_for σ es (resolved σ.schema (aliases_of σ es) x.base) x.operation) hits.old)) }
{
    match resolve_name(book, sets, d, q, asked.base, asked.base_parts) {
        Some(sought) => { plan_at(book, held, sets, d, p, q, asked, sought, choice, hits) }
        None => refused(asked.operation, Outcome::AliasProblem),
    }
}
