// The entries for the exchange and for corridor panels: three sheets and a lent buffer in, one reply out; and a directory sheet moved to the other
// form. With a refusal, and beyond the length in the reply, `out` is unchanged. The crate dinghy_c exports them to C.
#![tactic(auto)]

ghost use Rattle.std.specs.Prelude.{◌≡◌, length};
ghost use Rattle.rules.specs.Sheet.{narrow, format_of};
ghost use Rattle.rules.specs.Serve as Rules;
ghost use Rattle.rules.specs.Move.{widened, narrowed};
ghost use Rattle.answer_reply.specs.Reply.{reply_of, left_of, Replies};

use answer_reply::Reply;
use caller::format_of;
use directory_move::moved;
use engine::Terms;
use rules::Limits;

// Answers the request over the directory and the permissions, for a program of these limits, in the form that it names.
fn serve(
    directory: &[u8],
    permissions: &[u8],
    request: &[u8],
    out: &mut [u8],
    limits: Limits,
    wide: bool,
) -> Reply
    ensures { Replies (Rules.serve_at (format_of wide) limits directory.now permissions.now request.now (length out.old)) out.old result out.new }
{
    let terms = Terms {
        format: format_of(wide),
        limits,
    };
    engine::serve(directory, permissions, request, out, terms)
}

// For the exchange.
pub fn dinghy_serve(directory: &[u8], permissions: &[u8], request: &[u8], out: &mut [u8]) -> Reply
    ensures reply { result ≡ reply_of (Rules.serve_at narrow Rules.exchange directory.now permissions.now request.now (length out.old)) }
    ensures left { out.new ≡ left_of (Rules.serve_at narrow Rules.exchange directory.now permissions.now request.now (length out.old)) out.old }
{
    serve(
        directory,
        permissions,
        request,
        out,
        caller::exchange(),
        false,
    )
}

// For the exchange, in the form that it names.
pub fn dinghy_serve_form(
    directory: &[u8],
    permissions: &[u8],
    request: &[u8],
    out: &mut [u8],
    wide: bool,
) -> Reply
    ensures reply { result ≡ reply_of (Rules.serve_at (format_of wide) Rules.exchange directory.now permissions.now request.now (length out.old)) }
    ensures left { out.new ≡ left_of (Rules.serve_at (format_of wide) Rules.exchange directory.now permissions.now request.now (length out.old)) out.old }
{
    serve(
        directory,
        permissions,
        request,
        out,
        caller::exchange(),
        wide,
    )
}

// For a panel.
pub fn dinghy_serve_panel(
    directory: &[u8],
    permissions: &[u8],
    request: &[u8],
    out: &mut [u8],
) -> Reply
    ensures reply { result ≡ reply_of (Rules.serve_at narrow Rules.panel directory.now permissions.now request.now (length out.old)) }
    ensures left { out.new ≡ left_of (Rules.serve_at narrow Rules.panel directory.now permissions.now request.now (length out.old)) out.old }
{
    serve(directory, permissions, request, out, caller::panel(), false)
}

// For a panel, in the form that it names.
pub fn dinghy_serve_panel_form(
    directory: &[u8],
    permissions: &[u8],
    request: &[u8],
    out: &mut [u8],
    wide: bool,
) -> Reply
    ensures reply { result ≡ reply_of (Rules.serve_at (format_of wide) Rules.panel directory.now permissions.now request.now (length out.old)) }
    ensures left { out.new ≡ left_of (Rules.serve_at (format_of wide) Rules.panel directory.now permissions.now request.now (length out.old)) out.old }
{
    serve(directory, permissions, request, out, caller::panel(), wide)
}

// A directory sheet of six columns, moved to nine.
pub fn dinghy_widen(sheet: &[u8], out: &mut [u8]) -> Reply
    ensures reply { result ≡ reply_of (widened sheet.now (length out.old)) }
    ensures left { out.new ≡ left_of (widened sheet.now (length out.old)) out.old }
{
    moved(sheet, format_of(false), format_of(true), out)
}

// A directory sheet of nine columns, moved back to six.
pub fn dinghy_narrow(sheet: &[u8], out: &mut [u8]) -> Reply
    ensures reply { result ≡ reply_of (narrowed sheet.now (length out.old)) }
    ensures left { out.new ≡ left_of (narrowed sheet.now (length out.old)) out.old }
{
    moved(sheet, format_of(true), format_of(false), out)
}
