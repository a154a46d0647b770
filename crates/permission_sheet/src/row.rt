// The rows of an item's numbers, in the arrays of all rows.
ghost use Rattle.std.specs.Prelude.{◌≡◌, ◌+◌, ◌*◌, ◌≤◌, ◌<◌, length};
ghost use Rattle.rules.specs.Derived.{put_at};
ghost use Rattle.permission_sheet.specs.Noted.{RIGHTS, ALL-RIGHTS, SCOPES, ALL-SCOPES};
ghost use Rattle.permission_sheet.specs.Rows.{rights_row, scopes_row};

use super::{ALL_RIGHTS, ALL_SCOPES};
use permission_item::ItemLines;
use permission_weight::{score, weight};

// What a question about a permission touches, in the row of item number `k` (from 0). The digest of the value spares a look at its bytes.
pub fn store_rights(p: &[u8], rights: &mut [u64; ALL_RIGHTS], k: usize, lines: ItemLines)
    requires { (k < 256) × (length rights.old ≡ ALL-RIGHTS) × (lines.head.a ≤ 255) × (lines.target.place + lines.target.length ≤ length p.now) }
    ensures { rights.new ≡ put_at rights.old (k * RIGHTS) (rights_row p.now lines) }
{
    let target = lines.target;
    let at = k * super::RIGHTS;
    rights[at + super::SCORE] = score(weight(lines.head.a, lines.user.a, target.a), lines.head.c);
    rights[at + super::DIGEST] = value_syntax::digest::digest(0, sheet_line::bytes(p, target));
    rights[at + super::GRANTS] = lines.head.c;
    rights[at + super::WHAT] = target.a;
    rights[at + super::TYPE] = target.b;
    rights[at + super::PERMISSIONS] = lines.mask.a;
    rights[at + super::VALUE] = target.place as u64;
    rights[at + super::LENGTH] = target.length as u64;
}

// Which entries and which users it is for, by name and level.
pub fn store_scopes(scopes: &mut [u64; ALL_SCOPES], k: usize, lines: ItemLines)
    requires { (k < 256) × (length scopes.old ≡ ALL-SCOPES) }
    ensures { scopes.new ≡ put_at scopes.old (k * SCOPES) (scopes_row lines) }
{
    let at = k * super::SCOPES;
    scopes[at + super::BELOW] = lines.base.a;
    scopes[at + super::BASE] = lines.base.next as u64;
    scopes[at + super::BASE_PARTS] = lines.base.b;
    scopes[at + super::WHO] = lines.user.a;
    scopes[at + super::USER] = lines.user.next as u64;
    scopes[at + super::USER_PARTS] = lines.user.b;
    scopes[at + super::LEVEL] = lines.head.b;
}
