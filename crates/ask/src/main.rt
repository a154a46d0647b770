// Reads a directory, a permission sheet and a request from the files dir, perm and request, or from those that its arguments name, and prints the
// answer, or "refused" and the number.
#![tactic(auto)]

ghost use Rattle.std.specs.Prelude.{◌≡◌, ◌≤◌, length, take, IfOk, IfSome};
ghost use Rattle.std.specs.Io.{ReadsAtMost};

use answer_reply::Reply;
use std::env::FillError;
use std::fs::File;
use std::io;
use std::io::{Cursor, Read, Write};
use std::rt::{Env, Files};

// C's error numbers of a path that is too long, and of one that is no text.
const ENAMETOOLONG: i32 = 36;

const EILSEQ: i32 = 84;

// One byte more than a sheet may have, so that a longer file is seen to be too long.
fn sheet() -> [u8; 65537]
    ensures { 65537 ≡ length result }
{
    [0; 65537]
}

// An error's text without the number that ends it.
fn without_number(shown: &str) -> &str {
    match shown.rsplit_once(" (os error ") {
        Some((text, _)) => text,
        None => shown,
    }
}

// Tells standard error in one line what could not be read or written, and why.
fn tell(rt: &impl Eprint, what: &str, error: io::Error) -> io::Result<()> {
    let mut text = [0u8; 256];
    let mut shown = Cursor::new(&mut text[..]);
    write!(shown, "{error}")?;
    let n = shown.position() as usize;
    let Some(shown) = text.get(..n) else {
        return eprintln!(rt; "{what}");
    };
    let Ok(shown) = std::str::from_utf8(shown) else {
        return eprintln!(rt; "{what}");
    };
    let why = without_number(shown);
    eprintln!(rt; "{what}: {why}")
}

// The file at the front of `sheet`, as far as it has room.
fn read(rt: &impl Files, path: &str, sheet: &mut [u8]) -> io::Result<usize>
    ensures bound { ReadsAtMost result sheet.new }
    ensures kept { length sheet.new ≡ length sheet.old }
{
    let mut file = File::open(rt, path)?;
    let mut length = 0;
    while length < sheet.len() {
        let more = file.read(&mut sheet[length..])?;
        if more == 0 {
            break;
        }
        length += more;
    }
    Ok(length)
}

// The file that argument `i` names, or the one with the usual name: its length at the front of `sheet`. Standard error is told why a file cannot be read.
fn load(
    rt: &(impl Env + Files + Eprint),
    i: usize,
    usual: &str,
    sheet: &mut [u8],
) -> io::Result<Option<usize>>
    ensures bound { IfOk result (λ found. IfSome found (λ n. (n ≤ length sheet.new) × (n ≡ length (take n sheet.new)))) }
    ensures kept { length sheet.new ≡ length sheet.old }
{
    let mut argument = [0u8; 4096];
    let path = match rt.arg(i, &mut argument) {
        Ok(n) => match std::str::from_utf8(&argument[..n]) {
            Ok(path) => path,
            Err(_) => {
                tell(rt, usual, io::Error::from_raw_os_error(EILSEQ))?;
                return Ok(None);
            }
        },
        Err(FillError::NotPresent) => usual,
        Err(FillError::TooLong) => {
            tell(rt, usual, io::Error::from_raw_os_error(ENAMETOOLONG))?;
            return Ok(None);
        }
    };
    match read(rt, path, sheet) {
        Ok(n) => Ok(Some(n)),
        Err(error) => {
            tell(rt, path, error)?;
            Ok(None)
        }
    }
}

// Prints bytes; standard error is told if that fails.
fn put(rt: &(impl Print + Eprint), bytes: &[u8]) -> io::Result<()> {
    match rt.write_all(bytes) {
        Ok(()) => Ok(()),
        Err(error) => tell(rt, "standard output", error),
    }
}

// Prints the answer, or the refusal.
fn print(rt: &(impl Print + Eprint), out: &[u8], reply: Reply) -> io::Result<()> {
    if reply.refusal == 0 {
        let n = reply.length as usize;
        if n <= out.len() {
            put(rt, &out[0..n])?;
        }
        return Ok(());
    }
    put(rt, b"refused ")?;
    let number = reply.refusal;
    // Where the number is not printed, neither is what stands round it, of which standard error is told.
    match print!(rt; "{number}") {
        Ok(()) | Err(_) => {}
    }
    put(rt, b"\n")
}

fn main(rt: HostRuntime) -> io::Result<()> {
    let mut directory = sheet();
    let mut permissions = sheet();
    let mut request = sheet();
    let d = load(&rt, 1, "dir", &mut directory)?;
    let p = load(&rt, 2, "perm", &mut permissions)?;
    let q = load(&rt, 3, "request", &mut request)?;
    let (Some(d), Some(p), Some(q)) = (d, p, q) else {
        return Ok(());
    };
    // An answer that is longer is refused.
    let mut out = [0u8; 65536];
    let reply = dinghy::dinghy_serve(&directory[..d], &permissions[..p], &request[..q], &mut out);
    print(&rt, &out, reply)
}
