// The columns of a line, judged by its kind wherever it stands, where `top` is the highest type: is the kind one of its sheet's, and each number allowed?
ghost use Rattle.std.specs.Prelude.{◌≡◌, ℕ};
ghost use Rattle.rules.specs.Columns.{directory_forms, permission_forms, request_forms};
ghost use Rattle.sheet_kind.specs.Kinds.{number_of};
ghost use Rattle.sheet_kind.specs.declared.Kind.TheVariants.{Value, UserClass, ProtectedItem, Operation, Selection};
ghost use Rattle.sheet_form.specs.Columns.{in_form_of, columns_in};

use super::bounds::row;
use rules::{operation, subset, what, who};
use sheet_kind::{Kind, is, kind_of};
use sheet_line::Line;

// The most parts of a name, the most bytes of a line, and the highest number of all.
const PARTS: u64 = 8;

const BYTES: usize = 64;

const ANY: u64 = 18446744073709551615;

// Who: name parts only after a name.
fn user_class_columns(line: Line) -> bool
    ensures { (top : ℕ) → result ≡ in_form_of (permission_forms top) (number_of UserClass) line.a line.b line.c line.length }
{
    row(line, who::ALL_USERS, who::ALL_USERS, 0, 0, 0, 0, 0, 0)
        | (row(
            line,
            who::AT_OR_BELOW,
            who::AT_OR_BELOW,
            0,
            PARTS,
            0,
            0,
            0,
            0,
        ) | (row(line, who::ENTRY_ITSELF, who::ENTRY_ITSELF, 0, 0, 0, 0, 0, 0)
            | row(line, who::NAMED_USER, who::NAMED_USER, 0, PARTS, 0, 0, 0, 0)))
}

// What: a type where one is named, and a value for one value.
fn protected_item_columns(line: Line, top: u64) -> bool
    ensures { result ≡ in_form_of (permission_forms top) (number_of ProtectedItem) line.a line.b line.c line.length }
{
    row(
        line,
        what::ENTRY,
        what::ALL_TYPES_AND_VALUES,
        0,
        0,
        0,
        0,
        0,
        0,
    ) | (row(
        line,
        what::ONE_TYPE,
        what::VALUES_OF_TYPE,
        1,
        top,
        0,
        0,
        0,
        0,
    ) | row(
        line,
        what::ONE_VALUE,
        what::ONE_VALUE,
        1,
        top,
        0,
        0,
        0,
        BYTES,
    ))
}

// The operation: a size limit for list and search only.
fn operation_columns(line: Line) -> bool
    ensures { (top : ℕ) → result ≡ in_form_of (request_forms top) (number_of Operation) line.a line.b line.c line.length }
{
    row(
        line,
        operation::READ,
        operation::COMPARE,
        0,
        PARTS,
        0,
        0,
        0,
        0,
    ) | row(
        line,
        operation::LIST,
        operation::SEARCH,
        0,
        PARTS,
        0,
        ANY,
        0,
        0,
    )
}

// The selection: a number of types only where they are listed.
fn selection_columns(line: Line) -> bool
    ensures { (top : ℕ) → result ≡ in_form_of (request_forms top) (number_of Selection) line.a line.b line.c line.length }
{
    row(line, 0, 0, 0, 0, 0, 1, 0, 0) | row(line, 1, 1, 0, 16, 0, 1, 0, 0)
}

// A value line of the directory.
pub fn value_columns(line: Line, top: u64) -> bool
    requires { line.kind ≡ number_of Value }
    ensures { result ≡ columns_in (directory_forms top) line }
{
    row(line, 1, top, 0, 0, 0, 0, 0, BYTES)
}

// A line of the directory. Value lines are the most, and an alias's target is rare.
pub fn directory_columns(line: Line, top: u64) -> bool
    ensures { result ≡ columns_in (directory_forms top) line }
{
    if is(line.kind, Kind::Value) {
        return row(line, 1, top, 0, 0, 0, 0, 0, BYTES);
    }
    if is(line.kind, Kind::Entry) {
        return row(line, 0, ANY, 1, top, 0, 1, 0, BYTES);
    }
    if is(line.kind, Kind::AttributeType) {
        return row(line, 1, top, 0, 2, 0, 0, 0, 0);
    }
    if is(line.kind, Kind::Target) {
        return row(line, 0, 0, 1, PARTS, 0, 0, 0, 0);
    }
    if is(line.kind, Kind::NamePart) {
        return row(line, 1, top, 0, 0, 0, 0, 0, BYTES);
    }
    false
}

// A line of the permissions.
pub fn permission_columns(line: Line, top: u64) -> bool
    ensures { result ≡ columns_in (permission_forms top) line }
{
    match kind_of(line.kind) {
        Kind::Item => row(line, 0, 255, 0, 2, 0, 1, 0, 0),
        Kind::Base => row(line, 0, 1, 0, PARTS, 0, 0, 0, 0),
        Kind::UserClass => user_class_columns(line),
        Kind::ProtectedItem => protected_item_columns(line, top),
        Kind::Permissions => row(line, 1, 63, 0, 0, 0, 0, 0, 0),
        Kind::NamePart => row(line, 1, top, 0, 0, 0, 0, 0, BYTES),
        _ => false,
    }
}

// A line of a request.
pub fn request_columns(line: Line, top: u64) -> bool
    ensures { result ≡ columns_in (request_forms top) line }
{
    match kind_of(line.kind) {
        Kind::NamePart => row(line, 1, top, 0, 0, 0, 0, 0, BYTES),
        Kind::Requester => row(line, 0, 2, 0, PARTS, 0, 1, 0, 0),
        Kind::Operation => operation_columns(line),
        Kind::Selection => selection_columns(line),
        Kind::SelectedType => row(line, 1, top, 0, 0, 0, 0, 0, 0),
        Kind::Assertion => row(line, 1, top, 0, 0, 0, 0, 0, BYTES),
        Kind::Subset => row(line, subset::BASE, subset::SUBTREE, 0, 0, 0, 0, 0, 0),
        Kind::Ordering => row(line, 1, top, 0, 1, 0, 0, 0, 0),
        Kind::And => row(line, 0, 127, 0, 0, 0, 0, 0, 0),
        Kind::Or => row(line, 0, 127, 0, 0, 0, 0, 0, 0),
        Kind::Not => row(line, 0, 0, 0, 0, 0, 0, 0, 0),
        Kind::Equality => row(line, 1, top, 0, 0, 0, 0, 0, BYTES),
        Kind::AtLeast => row(line, 1, top, 0, 0, 0, 0, 0, BYTES),
        Kind::AtMost => row(line, 1, top, 0, 0, 0, 0, 0, BYTES),
        Kind::Present => row(line, 1, top, 0, 0, 0, 0, 0, 0),
        Kind::Substrings => row(line, 1, top, 1, 8, 0, 0, 0, 0),
        Kind::Piece => row(line, 0, 2, 0, 0, 0, 0, 1, BYTES),
        _ => false,
    }
}
