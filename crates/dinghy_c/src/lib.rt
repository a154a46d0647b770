// The C functions of include/dinghy.h, in the static library libdinghy.a: each is the function of that name in the crate dinghy.
#![tactic(auto)]

ghost use Rattle.std.specs.Prelude.{◌≡◌, length};
ghost use Rattle.rules.specs.Sheet.{narrow, format_of};
ghost use Rattle.rules.specs.Serve as Rules;
ghost use Rattle.rules.specs.Move.{widened, narrowed};
ghost use Rattle.answer_reply.specs.Reply.{reply_of, left_of};

use answer_reply::Reply;

// For the exchange.
#[unsafe(no_mangle)]
pub extern "C" fn dinghy_serve(
    directory: &[u8],
    permissions: &[u8],
    request: &[u8],
    out: &mut [u8],
) -> Reply
    ensures reply { result ≡ reply_of (Rules.serve_at narrow Rules.exchange directory.now permissions.now request.now (length out.old)) }
    ensures left { out.new ≡ left_of (Rules.serve_at narrow Rules.exchange directory.now permissions.now request.now (length out.old)) out.old }
{
    dinghy::dinghy_serve(directory, permissions, request, out)
}

// For the exchange, in the form that it names.
#[unsafe(no_mangle)]
pub extern "C" fn dinghy_serve_form(
    directory: &[u8],
    permissions: &[u8],
    request: &[u8],
    out: &mut [u8],
    wide: bool,
) -> Reply
    ensures reply { result ≡ reply_of (Rules.serve_at (format_of wide) Rules.exchange directory.now permissions.now request.now (length out.old)) }
    ensures left { out.new ≡ left_of (Rules.serve_at (format_of wide) Rules.exchange directory.now permissions.now request.now (length out.old)) out.old }
{
    dinghy::dinghy_serve_form(directory, permissions, request, out, wide)
}

// For a panel.
#[unsafe(no_mangle)]
pub extern "C" fn dinghy_serve_panel(
    directory: &[u8],
    permissions: &[u8],
    request: &[u8],
    out: &mut [u8],
) -> Reply
    ensures reply { result ≡ reply_of (Rules.serve_at narrow Rules.panel directory.now permissions.now request.now (length out.old)) }
    ensures left { out.new ≡ left_of (Rules.serve_at narrow Rules.panel directory.now permissions.now request.now (length out.old)) out.old }
{
    dinghy::dinghy_serve_panel(directory, permissions, request, out)
}

// For a panel, in the form that it names.
#[unsafe(no_mangle)]
pub extern "C" fn dinghy_serve_panel_form(
    directory: &[u8],
    permissions: &[u8],
    request: &[u8],
    out: &mut [u8],
    wide: bool,
) -> Reply
    ensures reply { result ≡ reply_of (Rules.serve_at (format_of wide) Rules.panel directory.now permissions.now request.now (length out.old)) }
    ensures left { out.new ≡ left_of (Rules.serve_at (format_of wide) Rules.panel directory.now permissions.now request.now (length out.old)) out.old }
{
    dinghy::dinghy_serve_panel_form(directory, permissions, request, out, wide)
}

// A directory sheet of six columns, moved to nine.
#[unsafe(no_mangle)]
pub extern "C" fn dinghy_widen(sheet: &[u8], out: &mut [u8]) -> Reply
    ensures reply { result ≡ reply_of (widened sheet.now (length out.old)) }
    ensures left { out.new ≡ left_of (widened sheet.now (length out.old)) out.old }
{
    dinghy::dinghy_widen(sheet, out)
}

// A directory sheet of nine columns, moved back to six.
#[unsafe(no_mangle)]
pub extern "C" fn dinghy_narrow(sheet: &[u8], out: &mut [u8]) -> Reply
    ensures reply { result ≡ reply_of (narrowed sheet.now (length out.old)) }
    ensures left { out.new ≡ left_of (narrowed sheet.now (length out.old)) out.old }
{
    dinghy::dinghy_narrow(sheet, out)
}
