// Names and values under a schema. A schema is lent as numbers, one for each attribute type: its number times 4, and its syntax.
#![tactic(auto)]

ghost use Rattle.std.specs.Prelude.{◌≡◌, ◌≤◌};
ghost use Rattle.rules.specs.Name;
ghost use Rattle.rules.specs.Value;
ghost use Rattle.rules.specs.Places.{schema_of};
ghost use Rattle.name.specs.Schema.{rank_in, syntax_in, allowed_at, equal_by};

// The rank of an attribute type in the schema: how many types stand before it; the number of all types if the schema does not have it.
// The first `from` types are others.
pub fn rank(schema: &[u64], from: usize, t: u64) -> usize
    requires { from ≤ rank_in schema.now t }
    ensures { result ≡ rank_in schema.now t }
{
    for i in from..schema.len() {
        if schema[i] / 4 == t {
            return i;
        }
    }
    schema.len()
}

// The syntax of an attribute type, if the schema has it.
pub fn syntax_of(schema: &[u64], t: u64) -> Option<usize>
    ensures { result ≡ syntax_in schema.now t }
{
    let r = rank(schema, 0, t);
    if r < schema.len() {
        return Some((schema[r] % 4) as usize);
    }
    None
}

// Is the type known?
pub fn known(schema: &[u64], t: u64) -> bool
    ensures { result ≡ Name.known (schema_of schema.now) t }
{
    match syntax_of(schema, t) {
        Some(_) => true,
        None => false,
    }
}

// Does the schema allow this value of the type that has this rank?
pub fn allowed_at(schema: &[u64], rank: usize, v: &[u8]) -> bool
    ensures { result ≡ allowed_at schema.now rank v.now }
{
    if rank < schema.len() {
        return value_syntax::fits(schema[rank] % 4, v);
    }
    false
}

// Does the schema allow this value of this type?
pub fn allowed(schema: &[u64], t: u64, v: &[u8]) -> bool
    ensures { result ≡ Name.allowed (schema_of schema.now) t v.now }
{
    allowed_at(schema, rank(schema, 0, t), v)
}

// Is the type known, and has its syntax an order?
pub fn ordered(schema: &[u64], t: u64) -> bool
    ensures { result ≡ Name.of_syntax (schema_of schema.now) Value.ordered t }
{
    match syntax_of(schema, t) {
        Some(s) => value_syntax::ordered(s as u64),
        None => false,
    }
}

// Are two values of a syntax allowed and equal? Those that differ are told apart first.
pub fn equal_by(s: u64, v: &[u8], u: &[u8]) -> bool
    ensures { result ≡ equal_by s v.now u.now }
{
    if value_syntax::same(s, v, u) {
        if value_syntax::fits(s, v) {
            return value_syntax::fits(s, u);
        }
    }
    false
}

// Are two values of a type equal under its syntax?
pub fn equal(schema: &[u64], t: u64, v: &[u8], u: &[u8]) -> bool
    ensures { result ≡ Name.equal (schema_of schema.now) t v.now u.now }
{
    match syntax_of(schema, t) {
        Some(s) => equal_by(s as u64, v, u),
        None => false,
    }
}
