// The two sheets whose lines are due one after the other: the forms of their lines, where `top` is the highest type, their
// refusals, and the further test of the permission sheet.
ghost use Rattle.std.specs.Prelude.{◌≡◌, ◌+◌, ◌≤◌};
ghost use Rattle.std.proofs.Math.ListN as ListN;
ghost use Rattle.rules.specs.Permission.{sound_item};
ghost use Rattle.rules.specs.Places.{schema_of};
ghost use Rattle.rules.specs.Refusals.{refusal_number};
ghost use Rattle.sheet_form.specs.Columns.{columns_in};
ghost use Rattle.sheet_line.specs.Line.{line_of};
ghost use Rattle.sheet_due.specs.Grammars.{forms_of, sound_of, refusals_of, fault_number};

use rules::refusals::Refusal;
use rules::what;
use sheet_kind::{Kind, is};
use sheet_line::Line;

// Which sheet a line stands in.
#[derive(Clone, Copy)]
pub enum Grammar {
    Permissions,
    Request,
}

// What is wrong where a line is due.
#[derive(Clone, Copy)]
pub enum Fault {
    NotAllowed,
    OutOfOrder,
    OutsideSchema,
}

// Is the line in a form of its sheet?
pub fn in_form(g: Grammar, line: Line, top: u64) -> bool
    ensures { result ≡ columns_in (forms_of top g) line }
{
    match g {
        Grammar::Permissions => sheet_form::columns::permission_columns(line, top),
        Grammar::Request => sheet_form::columns::request_columns(line, top),
    }
}

// The numbers that the refusals of the two sheets begin after.
pub const PERMISSIONS: u64 = 10;

pub const REQUEST: u64 = 20;

// The refusal number of a fault: 2, 3 or 4 after the sheet's own number.
pub fn refusal(g: Grammar, fault: u64) -> u64
    requires { fault ≤ 4 }
    ensures { result ≡ refusals_of g + fault }
{
    match g {
        Grammar::Permissions => PERMISSIONS + fault,
        Grammar::Request => REQUEST + fault,
    }
}

// The refusal of that number. No line of a request is held to the schema: there 4 is the number of a type without order.
pub fn refused(g: Grammar, fault: Fault) -> Refusal
    ensures { refusal_number result ≡ refusals_of g + fault_number fault }
{
    match g {
        Grammar::Permissions => match fault {
            Fault::NotAllowed => Refusal::PermissionsNotAllowed,
            Fault::OutOfOrder => Refusal::PermissionsOutOfOrder,
            Fault::OutsideSchema => Refusal::PermissionsOutsideSchema,
        },
        Grammar::Request => match fault {
            Fault::NotAllowed => Refusal::RequestNotAllowed,
            Fault::OutOfOrder => Refusal::RequestOutOfOrder,
            Fault::OutsideSchema => Refusal::TypeWithoutOrder,
        },
    }
}

// A line of the permission sheet, K 7 or K 9: is the type known and the value within its syntax?
fn sound_item(s: &[u8], schema: &[u64], line: Line) -> bool
    requires { line.place + line.length ≤ ListN.length s.now }
    ensures { result ≡ sound_item (schema_of schema.now) (line_of s.now line) }
{
    if is(line.kind, Kind::ProtectedItem) {
        if line.a < what::ONE_TYPE {
            return true;
        }
        if line.a == what::ONE_VALUE {
            return name::allowed(schema, line.b, sheet_line::bytes(s, line));
        }
        return name::known(schema, line.b);
    }
    if is(line.kind, Kind::NamePart) {
        return name::allowed(schema, line.a, sheet_line::bytes(s, line));
    }
    true
}

// Is the type of a line known and its value within its syntax, where the sheet asks for it?
pub fn sound(s: &[u8], schema: &[u64], g: Grammar, line: Line) -> bool
    requires { line.place + line.length ≤ ListN.length s.now }
    ensures { result ≡ sound_of (schema_of schema.now) g (line_of s.now line) }
{
    match g {
        Grammar::Permissions => sound_item(s, schema, line),
        Grammar::Request => true,
    }
}
