// Sets of numbers below 256, as 256 bits by value.
#![tactic(auto)]

ghost use Rattle.std.specs.Prelude.{◌≡◌, true, false, not, ◌&&◌, ◌||◌, ℕ, ◌<◌, eqb};
ghost use Rattle.access_set.specs.Member.{Lowest, word_of, member, meet, join, Least};

// Bit `i % 64` of word `i / 64`. Four fields and not an array: `row_of`, `row_stored` and the theorems `with-a` to `least-none` of specs/ are said of the
// fields, and `stored_there` would be false of a list of any other length.
#[derive(Clone, Copy)]
pub struct Bits {
    pub a: u64,
    pub b: u64,
    pub c: u64,
    pub d: u64,
}

// The words as one choice: word `k`, 0 beyond the last.
fn word(s: Bits, k: usize) -> u64
    ensures { result ≡ word_of s k }
{
    match k {
        0 => s.a,
        1 => s.b,
        2 => s.c,
        3 => s.d,
        _ => 0,
    }
}

// The place of the lowest bit that is set.
fn lowest(x: u64) -> usize
    requires { 0 < x }
    ensures { Lowest x result }
{
    u64::trailing_zeros(x) as usize
}

impl Bits {
    pub fn empty() -> Bits
        ensures { (j : ℕ) → member result j ≡ false }
    {
        Bits {
            a: 0,
            b: 0,
            c: 0,
            d: 0,
        }
    }

    pub fn has(self, i: usize) -> bool
        ensures { result ≡ member self i }
    {
        let w = word(self, i / 64);
        let j = i % 64;
        (w >> j) % 2 == 1
    }

    // The numbers in both sets.
    pub fn and(self, o: Bits) -> Bits
        ensures { result ≡ meet self o }
    {
        Bits {
            a: self.a & o.a,
            b: self.b & o.b,
            c: self.c & o.c,
            d: self.d & o.d,
        }
    }

    // The numbers in either set.
    pub fn or(self, o: Bits) -> Bits
        ensures { result ≡ join self o }
    {
        Bits {
            a: self.a | o.a,
            b: self.b | o.b,
            c: self.c | o.c,
            d: self.d | o.d,
        }
    }

    // The set with `i`.
    pub fn with(self, i: usize) -> Bits
        requires { i < 256 }
        ensures { (j : ℕ) → member result j ≡ (eqb j i || member self j) }
    {
        let x = 1u64 << (i % 64);
        match i / 64 {
            0 => Bits {
                a: self.a | x,
                ..self
            },
            1 => Bits {
                b: self.b | x,
                ..self
            },
            2 => Bits {
                c: self.c | x,
                ..self
            },
            _ => Bits {
                d: self.d | x,
                ..self
            },
        }
    }

    // The set without `i`, a member of it.
    pub fn without(self, i: usize) -> Bits
        requires { (i < 256) × (member self i ≡ true) }
        ensures { (j : ℕ) → member result j ≡ (member self j && not (eqb j i)) }
    {
        let x = 1u64 << (i % 64);
        match i / 64 {
            0 => Bits {
                a: self.a ^ x,
                ..self
            },
            1 => Bits {
                b: self.b ^ x,
                ..self
            },
            2 => Bits {
                c: self.c ^ x,
                ..self
            },
            _ => Bits {
                d: self.d ^ x,
                ..self
            },
        }
    }

    // The least member.
    pub fn first(self) -> Option<usize>
        ensures { Least (member self) result }
    {
        for (k, w) in [self.a, self.b, self.c, self.d].iter().enumerate() {
            if *w != 0 {
                return Some(k * 64 + lowest(*w));
            }
        }
        None
    }
}
