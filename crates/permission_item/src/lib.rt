// An item of the permission sheet: its five lines, and the two names between them.
#![tactic(auto)]

ghost use Rattle.rules.specs.Sheet.{Usable};
ghost use Rattle.rules.specs.Places.{schema_of};
ghost use Rattle.sheet_due.specs.Outcomes.{Gives};
ghost use Rattle.permission_item.specs.Item.{item_refusal, item_lines};

use rules::Format;
use rules::refusals::Refusal;
use sheet_due::grammar::Grammar;
use sheet_kind::Kind;
use sheet_line::Line;
use sheet_reader::Reader;

// The lines of an item, K 4 to 8. Each name follows its line; the item ends with its mask.
#[derive(Clone, Copy)]
pub struct ItemLines {
    pub head: Line,
    pub base: Line,
    pub user: Line,
    pub target: Line,
    pub mask: Line,
}

// The item at `at`: "K 4 to 8, in that order, once each", the parts of a name following as K 9. One reader goes through its lines.
pub fn item_at(p: &[u8], f: Format, schema: &[u64], at: usize) -> Result<ItemLines, Refusal>
    requires { Usable f }
    ensures { Gives result (item_refusal f p.now (schema_of schema.now) at) (item_lines f p.now (schema_of schema.now) at) }
{
    let g = Grammar::Permissions;
    let head = Reader::new(p, at).due(f, g, schema, Ok(()), Kind::Item)?;
    let base = head
        .rest
        .group(f, g, schema, Ok(()), Kind::Base, Kind::NamePart)?;
    let user = base
        .rest
        .group(f, g, schema, Ok(()), Kind::UserClass, Kind::NamePart)?;
    let target = user.rest.due(f, g, schema, Ok(()), Kind::ProtectedItem)?;
    let mask = target.rest.due(f, g, schema, Ok(()), Kind::Permissions)?;
    Ok(ItemLines {
        head: head.line,
        base: base.line,
        user: user.line,
        target: target.line,
        mask: mask.line,
    })
}
