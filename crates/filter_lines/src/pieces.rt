// The pieces of a substrings item: the K 28 lines that follow its line. Where there are fewer lines than pieces, the pieces end with the lines.
ghost use Rattle.std.specs.Prelude.{◌≡◌, ◌+◌, ◌-◌, ◌≤◌, length};
ghost use Rattle.rules.specs.Lists.{all};
ghost use Rattle.rules.specs.Value as Value;
ghost use Rattle.filter_lines.specs.Lines.{RowsPlaced, pieces_in, pieces_stand, lesser};

use crate::lines::{FILTER, FIRST, LINE, value_of};
use value_blank::{tidied, tidy};

// The line after the `n` pieces from line `k` on, of `lines` lines.
fn end_of(lines: usize, k: usize, n: u64) -> usize
    requires { k ≤ lines }
    ensures within { result ≤ lines }
    ensures is { result ≡ k + lesser n (lines - k) }
{
    if n < (lines - k) as u64 {
        return k + n as usize;
    }
    lines
}

// Do all of the `n` pieces from line `k` on, of `lines` lines, fit the syntax?
pub fn pieces_fit(
    syntax: u64,
    q: &[u8],
    rows: &[u64; FILTER],
    lines: usize,
    k: usize,
    n: u64,
) -> bool
    requires { RowsPlaced q.now rows.now lines × (k ≤ lines) }
    ensures { result ≡ all (λ p. Value.fits syntax p.bytes) (pieces_in q.now rows.now k (lesser n (lines - k))) }
{
    for j in k..end_of(lines, k, n) {
        if !value_syntax::fits(syntax, value_of(q, rows, j)) {
            return false;
        }
    }
    true
}

// Do the `n` pieces from line `k` on, of `lines` lines, stand in the text `v`, which has no stray blanks, in order and without overlap?
fn pieces_stand(q: &[u8], rows: &[u64; FILTER], lines: usize, k: usize, n: u64, v: &[u8]) -> bool
    requires { RowsPlaced q.now rows.now lines × (k ≤ lines) }
    ensures { result ≡ pieces_stand v.now (pieces_in q.now rows.now k (lesser n (lines - k))) }
{
    let mut from: usize = 0;
    for j in k..end_of(lines, k, n) {
        let Some(used) = value_syntax::piece_end(
            v,
            from,
            rows[j * LINE + FIRST],
            value_of(q, rows, j),
        ) else {
            return false;
        };
        from += used;
    }
    true
}

// The substrings rule: do the pieces stand in the value `v`?
pub fn substrings(q: &[u8], rows: &[u64; FILTER], lines: usize, k: usize, n: u64, v: &[u8]) -> bool
    requires { RowsPlaced q.now rows.now lines × (k ≤ lines) × (length v.now ≤ 64) }
    ensures { result ≡ Value.contains Value.text (pieces_in q.now rows.now k (lesser n (lines - k))) v.now }
{
    if tidy(v) {
        return pieces_stand(q, rows, lines, k, n, v);
    }
    let t = tidied(v);
    let end = t.length;
    let bytes = t.bytes;
    pieces_stand(q, rows, lines, k, n, &bytes[0..end])
}
