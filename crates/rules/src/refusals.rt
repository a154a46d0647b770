// The refusals of documents 01 and 02, and their numbers.
ghost use Rattle.std.specs.Prelude.{◌≡◌};
ghost use Rattle.rules.specs.Refusals.{refusal_number};

// Why a sheet or a call is refused.
#[derive(Clone, Copy, PartialEq, Eq)]
pub enum Refusal {
    // Of the directory.
    TooLong = 1,
    NotAllowed = 2,
    OutOfOrder = 3,
    OutsideSchema = 4,
    Twice = 5,
    NamingValueNotHeld = 6,
    // Of the permissions.
    PermissionsTooLong = 11,
    PermissionsNotAllowed = 12,
    PermissionsOutOfOrder = 13,
    PermissionsOutsideSchema = 14,
    // Of a request.
    RequestTooLong = 21,
    RequestNotAllowed = 22,
    RequestOutOfOrder = 23,
    TypeWithoutOrder = 24,
    // Of the calling program.
    BufferTooShort = 31,
    PanelBufferTooLong = 33,
    // Of a move.
    TypeTooHigh = 35,
    MovedTooLong = 36,
}

// The number of a refusal.
pub fn refusal_number(refusal: Refusal) -> u64
    ensures { result ≡ refusal_number refusal }
{
    refusal as u64
}
