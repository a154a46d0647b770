// A number that equal values share and few others do, so that bytes are compared only where the numbers agree.
ghost use Rattle.std.specs.Prelude.{◌≡◌, ◌<◌, ◌^◌};
ghost use Rattle.value_syntax.specs.Digest as Digest;

use value_blank::{tidied, tidy};

// A byte as a number, letters without case.
fn caseless(b: u8) -> u64
    ensures { (result ≡ Digest.caseless b) × (result < 2 ^ 32) }
{
    let w = b as u64;
    w | (w & 64) / 2
}

// Four bytes as one number, letters without case: all four at once.
fn word(a: u8, b: u8, c: u8, d: u8) -> u64
    ensures { (result ≡ Digest.word a b c d) × (result < 2 ^ 32) }
{
    let w = a as u64 + b as u64 * 256 + c as u64 * 65536 + d as u64 * 16777216;
    w | (w & 1077952576) / 2
}

// A number below 2^32 mixed into `h`.
fn stirred(h: u64, w: u64) -> u64
    requires { w < 2 ^ 32 }
    ensures { result ≡ Digest.stirred h w }
{
    let x = (h % 4294967296 + w) * 1540483477;
    x ^ (x / 536870912)
}

// The bytes mixed into `seed`, four at a time and then those left one by one.
fn mixed(seed: u64, v: &[u8]) -> u64
    ensures { result ≡ Digest.mixed seed v.now }
{
    let mut h = seed;
    let n = v.len() / 4;
    for q in 0..n {
        let i = 4 * q;
        h = stirred(h, word(v[i], v[i + 1], v[i + 2], v[i + 3]));
    }
    for i in 4 * n..v.len() {
        h = stirred(h, caseless(v[i]));
    }
    h % 4294967296
}

// The digest of a value: letters count without case, and blanks as in text, so that equal values have one digest in every syntax.
pub fn digest(seed: u64, v: &[u8]) -> u64
    ensures { result ≡ Digest.digest seed v.now }
{
    if v.len() <= 64 {
        if tidy(v) {
            return mixed(seed, v);
        }
    }
    let t = tidied(v);
    let n = t.length;
    let bytes = t.bytes;
    mixed(seed, &bytes[0..n])
}
