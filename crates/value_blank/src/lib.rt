// Blanks in text, byte 32 (#102): whether a text has stray ones, and the text as it counts, byte by byte or as a whole.
#![tactic(auto)]

ghost use Rattle.std.specs.Prelude.{◌≡◌, ◌||◌, ◌+◌, ◌≤◌, ◌<◌, length, take};
ghost use Rattle.rules.specs.Value as Value;
ghost use Rattle.value_blank.specs.Blank as Blank;

pub const BLANK: u8 = 32;

// A text of at most 64 bytes; those beyond its length are 0.
#[derive(Clone, Copy)]
pub struct Text {
    pub bytes: [u8; 64],
    pub length: usize,
}

// Are there two blanks at `i`?
fn pair(v: &[u8], i: usize) -> bool
    requires { i + 1 < length v.now }
    ensures { result ≡ Blank.pair_at v.now i }
{
    (v[i] == BLANK) & (v[i + 1] == BLANK)
}

// Is byte `i + 1` a blank, with another beside it?
fn beside(v: &[u8], i: usize) -> bool
    requires { i + 2 < length v.now }
    ensures { result ≡ (Blank.pair_at v.now i || Blank.pair_at v.now (i + 1)) }
{
    if v[i + 1] == BLANK {
        return (v[i] == BLANK) | (v[i + 2] == BLANK);
    }
    false
}

// Has the text a run of blanks? Every other byte is looked at, and those beside it where it is a blank.
pub fn run(v: &[u8]) -> bool
    ensures { result ≡ Blank.has_run v.now }
{
    let n = v.len().saturating_sub(1) / 2;
    for q in 0..n {
        if beside(v, 2 * q) {
            return true;
        }
    }
    if 1 < v.len() - 2 * n {
        return pair(v, 2 * n);
    }
    false
}

// Is the text tidied as it stands: no blank at its ends, and no run?
#[tactic(auto, unfolding(crate::specs::Blank::is_tidy))]
pub fn tidy(v: &[u8]) -> bool
    ensures { result ≡ Blank.is_tidy v.now }
{
    if v.len() == 0 {
        return false;
    }
    if v[0] == BLANK {
        return false;
    }
    if v[v.len() - 1] == BLANK {
        return false;
    }
    !run(v)
}

// The first byte from `i` on that is no blank, or the end.
pub fn skip(v: &[u8], i: usize) -> usize
    requires { i ≤ length v.now }
    ensures { result ≡ Blank.skipped v.now i }
{
    for k in i..v.len() {
        if v[k] != BLANK {
            return k;
        }
    }
    v.len()
}

// What comes next from `i` on, after a byte that is no blank: the byte of the tidied text, and the place from which to go on; none at the end.
#[tactic(auto, unfolding(crate::specs::Blank::next_at))]
pub fn next_at(v: &[u8], i: usize) -> Option<(u8, usize)>
    requires { i ≤ length v.now }
    ensures { result ≡ Blank.next_at v.now i }
{
    let k = skip(v, i);
    if k == v.len() {
        return None;
    }
    if i < k {
        return Some((BLANK, k));
    }
    Some((v[k], k + 1))
}

// The text with one byte more, where there is room.
#[tactic(auto, unfolding(crate::specs::Blank::put))]
fn put(t: Text, b: u8) -> Text
    ensures { result ≡ Blank.put t b }
{
    let mut longer = t;
    let n = t.length;
    if n < 64 {
        longer.bytes[n] = b;
        longer.length = n + 1;
    }
    longer
}

// Is byte `i` a blank that another follows?
fn doubled(v: &[u8], i: usize) -> bool
    requires { i < length v.now }
    ensures { result ≡ Blank.doubled_at v.now i }
{
    if i + 1 < v.len() {
        return pair(v, i);
    }
    false
}

// The text with byte `i` of `v`, unless that is such a blank.
#[tactic(auto, unfolding(crate::specs::Blank::kept))]
fn kept(t: Text, v: &[u8], i: usize) -> Text
    requires { i < length v.now }
    ensures { result ≡ Blank.kept t v.now i }
{
    if doubled(v, i) {
        return t;
    }
    put(t, v[i])
}

// A text, runs taken as one blank: its first 64 bytes.
pub fn shortened(v: &[u8]) -> Text
    ensures { result ≡ Blank.text_of (take 64 (Value.shorten v.now)) }
{
    let mut t = Text {
        bytes: [0; 64],
        length: 0,
    };
    for i in 0..v.len() {
        t = kept(t, v, i);
    }
    t
}

// A text with the blanks that count: its first 64 bytes.
pub fn tidied(v: &[u8]) -> Text
    ensures { result ≡ Blank.text_of (take 64 (Value.tidied v.now)) }
{
    let mut t = Text {
        bytes: [0; 64],
        length: 0,
    };
    let mut i = skip(v, 0);
    if i == v.len() {
        return put(t, BLANK);
    }
    loop {
        let Some((b, k)) = next_at(v, i) else {
            return t;
        };
        t = put(t, b);
        i = k;
    }
}
