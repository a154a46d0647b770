// The permission sheet, judged in one pass: its refusal, or its items as rows of numbers. Names and values are noted by their
// positions on the sheet, a value by its digest too, so that a question about a permission reads numbers and seldom bytes.
#![tactic(auto)]

mod row;

ghost use Rattle.std.specs.Prelude.{◌≡◌, replicate};
ghost use Rattle.rules.specs.Sheet.{Usable};
ghost use Rattle.rules.specs.Columns.{permission_forms};
ghost use Rattle.rules.specs.Refusals.{refusal_number};
ghost use Rattle.sheet_due.specs.Lines.{seen_at, misplaced_by};
ghost use Rattle.permission_sheet.specs.Noted.{ALL-RIGHTS, ALL-SCOPES, noted_of, PermissionsJudged};

use rules::Format;
use rules::refusals::Refusal;
use sheet_due::due_at;
use sheet_due::grammar::Grammar;
use sheet_kind::Kind;

// The places of an item's numbers in its row of rights, and the length of the row.
pub const SCORE: usize = 0;

pub const DIGEST: usize = 1;

pub const GRANTS: usize = 2;

pub const WHAT: usize = 3;

pub const TYPE: usize = 4;

pub const PERMISSIONS: usize = 5;

pub const VALUE: usize = 6;

pub const LENGTH: usize = 7;

pub const RIGHTS: usize = 8;

// How many numbers the rows of rights of 256 items have.
pub const ALL_RIGHTS: usize = 2048;

// The places of its numbers in its row of scopes, and the length of the row.
pub const BELOW: usize = 0;

pub const BASE: usize = 1;

pub const BASE_PARTS: usize = 2;

pub const WHO: usize = 3;

pub const USER: usize = 4;

pub const USER_PARTS: usize = 5;

pub const LEVEL: usize = 6;

pub const SCOPES: usize = 7;

// How many numbers their rows of scopes have.
pub const ALL_SCOPES: usize = 1792;

// The refusal of what stands at a position after the last item that there may be: that of a line that begins an item, or 13 for such a line itself.
fn misplaced_at(p: &[u8], f: Format, schema: &[u64], at: usize) -> Refusal
    requires { Usable f }
    ensures { refusal_number result ≡ misplaced_by 10 (seen_at (permission_forms f.top) f.width p.now at) }
{
    match due_at(p, f, Grammar::Permissions, schema, Ok(at), Kind::Item) {
        Ok(_) => Refusal::PermissionsOutOfOrder,
        Err(refusal) => refusal,
    }
}

// How many items the permission sheet `p` has, in the format `f`, judged against the schema. They are noted in 256 rows of rights and 256 rows of
// scopes, where they stay: no array is copied.
pub fn judge(
    p: &[u8],
    f: Format,
    schema: &[u64],
    rights: &mut [u64; ALL_RIGHTS],
    scopes: &mut [u64; ALL_SCOPES],
) -> Result<usize, Refusal>
    requires { Usable f × (rights.old ≡ replicate ALL-RIGHTS 0) × (scopes.old ≡ replicate ALL-SCOPES 0) }
    ensures { PermissionsJudged f p.now schema.now (noted_of result) rights.new scopes.new }
{
    if 65536 < p.len() {
        return Err(Refusal::PermissionsTooLong);
    }
    let mut at: usize = 0;
    for count in 0..256 {
        if p.len() <= at {
            return Ok(count);
        }
        let lines = permission_item::item_at(p, f, schema, at)?;
        row::store_rights(p, rights, count, lines);
        row::store_scopes(scopes, count, lines);
        at = lines.mask.next;
    }
    if at < p.len() {
        return Err(misplaced_at(p, f, schema, at));
    }
    Ok(256)
}
