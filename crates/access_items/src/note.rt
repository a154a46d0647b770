// One item: the rows that it enters, and the numbers of its value.
ghost use Rattle.std.specs.Prelude.{◌≡◌, ◌≤◌, ◌<◌, length};
ghost use Rattle.name.specs.Schema.{Rising};
ghost use Rattle.access_items.specs.Note.{Small, permitted, grants_noted, about_noted, type_noted, value_noted, item_noted};

use super::mark::mark;
use permission_sheet::ALL_RIGHTS;
use tables::sets::SETS;

// The permissions of the item, each by its row.
fn note_permissions(mask: u64, place: usize, sets: &mut [u64; SETS])
    requires { place < 256 }
    ensures { sets.new ≡ permitted 6 mask place sets.old }
{
    for b in 0..6 {
        mark(sets, tables::sets::PERMISSION + b, place, (mask >> b) % 2);
    }
}

// Whether it grants, and what.
fn note_grants(rights: &[u64; ALL_RIGHTS], at: usize, place: usize, sets: &mut [u64; SETS])
    requires { (place < 256) × Small rights.now at }
    ensures { sets.new ≡ grants_noted rights.now at place sets.old }
{
    mark(
        sets,
        tables::sets::GRANTS,
        place,
        rights[at + permission_sheet::GRANTS],
    );
    note_permissions(rights[at + permission_sheet::PERMISSIONS], place, sets);
}

// What it is about: the kind, and the slots of the value's digest.
fn note_about(rights: &[u64; ALL_RIGHTS], at: usize, place: usize, sets: &mut [u64; SETS])
    requires { (place < 256) × Small rights.now at }
    ensures { sets.new ≡ about_noted rights.now at place sets.old }
{
    let what = rights[at + permission_sheet::WHAT] as usize;
    let digest = rights[at + permission_sheet::DIGEST];
    mark(sets, tables::sets::WHAT + what, place, 1);
    mark(sets, tables::sets::first_slot(digest), place, 1);
    mark(sets, tables::sets::second_slot(digest), place, 1);
}

// The type that it names, if the schema has it. An item about the entry or all types names type 0, which is not looked up.
fn note_type(schema: &[u64], t: u64, place: usize, sets: &mut [u64; SETS])
    requires { (place < 256) × Rising 0 schema.now × (length schema.now ≤ 64) }
    ensures { sets.new ≡ type_noted schema.now t place sets.old }
{
    if t != 0 {
        let rank = name::rank(schema, 0, t);
        if rank < schema.len() {
            mark(sets, tables::sets::TYPE + rank, place, 1);
        }
    }
}

// The digest, the place and the length of its value.
fn note_value(rights: &[u64; ALL_RIGHTS], at: usize, place: usize, sets: &mut [u64; SETS])
    requires { (place < 256) × Small rights.now at }
    ensures { sets.new ≡ value_noted rights.now at place sets.old }
{
    sets[tables::sets::DIGEST + place] = rights[at + permission_sheet::DIGEST];
    sets[tables::sets::PLACE + place] = rights[at + permission_sheet::VALUE];
    sets[tables::sets::LENGTH + place] = rights[at + permission_sheet::LENGTH];
}

// The item whose row of rights begins at `at`, at its place in the order.
pub fn note_item(
    rights: &[u64; ALL_RIGHTS],
    at: usize,
    schema: &[u64],
    place: usize,
    sets: &mut [u64; SETS],
)
    requires { (place < 256) × Rising 0 schema.now × (length schema.now ≤ 64) × Small rights.now at }
    ensures { sets.new ≡ item_noted rights.now at schema.now place sets.old }
{
    note_grants(rights, at, place, sets);
    note_about(rights, at, place, sets);
    note_type(schema, rights[at + permission_sheet::TYPE], place, sets);
    note_value(rights, at, place, sets);
}
