// The decision about a value, where items about single values take part: those about another value are passed over. Their digests are compared
// before their bytes, and that of the value is made only where such an item comes first.
ghost use Rattle.std.specs.Prelude.{◌≡◌, ◌&&◌, ◌||◌, ◌+◌, ◌≤◌, ◌<◌};
ghost use Rattle.access_set.specs.Member.{member};
ghost use Rattle.tables.specs.Sets.{ValuesWithin};
ghost use Rattle.access_may.specs.Decided.{Decided, First};
ghost use Rattle.access_may.specs.Single.{agrees_at, same_at};

use access_set::Bits;
use tables::sets::{DIGEST, GRANTS, LENGTH, PLACE, SETS, first_slot, row, second_slot};
use value_syntax::digest::digest;

// Is the value of the item at place `i` the value `v`, by digest and bytes?
fn agrees(sets: &[u64; SETS], p: &[u8], syntax: u64, digest: u64, v: &[u8], i: usize) -> bool
    requires { (i < 256) × ValuesWithin sets.now p.now }
    ensures { result ≡ agrees_at sets.now p.now syntax digest v.now i }
{
    if sets[DIGEST + i] != digest {
        return false;
    }
    let from = sets[PLACE + i] as usize;
    let size = sets[LENGTH + i] as usize;
    name::equal_by(syntax, &p[from..from + size], v)
}

// The least member of a set; 256 where there is none. A number, and no Option: two places are compared, and none comes after all.
fn place(s: Bits) -> usize
    ensures { First (member s) 256 result }
{
    let Some(i) = s.first() else {
        return 256;
    };
    i
}

// The first place before `end` of an item of `single` about this value; `end` where there is none.
fn first_same(
    sets: &[u64; SETS],
    p: &[u8],
    single: Bits,
    end: usize,
    syntax: u64,
    digest: u64,
    v: &[u8],
) -> usize
    requires { (end ≤ 256) × ValuesWithin sets.now p.now }
    ensures { First (λ j. member single j && agrees_at sets.now p.now syntax digest v.now j) end result }
{
    let mut rest = single;
    let mut i = place(rest);
    while i < end {
        if agrees(sets, p, syntax, digest, v, i) {
            return i;
        }
        rest = rest.without(i);
        i = place(rest);
    }
    end
}

// Does the first grant of those about all values and those of `single` about this one? Refused where there is none.
pub(crate) fn decided_value(
    sets: &[u64; SETS],
    p: &[u8],
    all: Bits,
    single: Bits,
    syntax: u64,
    v: &[u8],
) -> bool
    requires { ValuesWithin sets.now p.now }
    ensures { Decided sets.now (λ j. member all j || member single j && same_at sets.now p.now syntax v.now j) result }
{
    let end = place(all);
    if end <= place(single) {
        return row(sets, GRANTS).has(end);
    }
    let h = digest(0, v);
    let near = single
        .and(row(sets, first_slot(h)))
        .and(row(sets, second_slot(h)));
    let i = first_same(sets, p, near, end, syntax, h, v);
    row(sets, GRANTS).has(i)
}
