// The head of each type, found once a call: what the words of a value must hold, so that no chain of types is walked for each value.
// THE HEAD of a type is a simple type or process type, where each word of a value is a value of that one; else the first type down the
// chain of only parts (records of one field, arrays of one element) that has several.
ghost use Rattle.std.specs.Prelude.{◌≡◌, ◌≤◌, ◌<◌, length};
ghost use Rattle.code.specs.Code.{decoded};
ghost use Rattle.table.specs.Entries.{type_kind};
ghost use Rattle.values.specs.Heads.{has_parts, Head, Heads, HeadsTo, PartSaid, FieldsSaid};

use code::kinds;

// A record or an array.
#[tactic(auto, unfolding(crate::specs::Heads::has_parts))]
fn has_parts(c: &code::Slots, x: usize) -> bool
    ensures { result ≡ has_parts (decoded c.now) x }
{
    matches!(code::type_kind(c, x), kinds::RECORD | kinds::ARRAY)
}

// The head of type x. Those of the types below `heads.len()` are known; any other type may stand for itself.
pub fn head_of(c: &code::Slots, heads: &[u16], x: usize) -> usize
    requires { Heads (decoded c.now) heads.now }
    ensures { Head (decoded c.now) x result }
{
    if x < heads.len() {
        usize::from(heads[x])
    } else {
        x
    }
}

// A part of type f, of a value of type x, has a lower type with the head h.
#[tactic(auto, using(crate::proofs::Heading::having))]
fn part_shares(c: &code::Slots, heads: &[u16], x: usize, h: usize, f: usize) -> bool
    requires { Heads (decoded c.now) heads.now }
    ensures { PartSaid (decoded c.now) x h f result }
{
    f < x && head_of(c, heads, f) == h
}

fn fields_share(c: &code::Slots, heads: &[u16], x: usize, h: usize) -> bool
    requires { Heads (decoded c.now) heads.now }
    ensures { FieldsSaid (decoded c.now) x h result }
{
    let first = code::type_p(c, x);
    (0..code::type_q(c, x)).all(|i| part_shares(c, heads, x, h, code::field_type(c, first + i)))
}

// A record of one field has the head of its field; one whose fields have one simple head has that; any other has itself.
fn record_head(c: &code::Slots, heads: &[u16], x: usize) -> usize
    requires heads { Heads (decoded c.now) heads.now }
    requires x_value { type_kind (decoded c.now) x ≡ 1 }
    ensures { Head (decoded c.now) x result }
{
    let f = code::field_type(c, code::type_p(c, x));
    if x <= f {
        return x;
    }
    let h = head_of(c, heads, f);
    if code::type_q(c, x) == 1 || !has_parts(c, h) && fields_share(c, heads, x, h) {
        h
    } else {
        x
    }
}

// So for an array.
fn array_head(c: &code::Slots, heads: &[u16], x: usize) -> usize
    requires heads { Heads (decoded c.now) heads.now }
    requires x_value { type_kind (decoded c.now) x ≡ 2 }
    ensures { Head (decoded c.now) x result }
{
    let q = code::type_q(c, x);
    if x <= q {
        return x;
    }
    let h = head_of(c, heads, q);
    if types::elements_of(c, x) == 1 || !has_parts(c, h) {
        h
    } else {
        x
    }
}

fn found_head(c: &code::Slots, heads: &[u16], x: usize) -> usize
    requires { Heads (decoded c.now) heads.now }
    ensures { Head (decoded c.now) x result }
{
    match code::type_kind(c, x) {
        kinds::RECORD => record_head(c, heads, x),
        kinds::ARRAY => array_head(c, heads, x),
        _ => x,
    }
}

// Finds the heads of the types below n, the standard types first.
#[tactic(auto, using(crate::proofs::Filling::lookup_part, crate::proofs::Filling::lookup_all, crate::proofs::Heading::head_small, crate::proofs::Heading::standard_heads))]
pub fn find_heads(c: &code::Slots, heads: &mut [u16], n: usize)
    requires { (3 ≤ n) × ((n ≤ 65536) × (n ≤ length heads.old)) }
    ensures { HeadsTo (decoded c.now) n heads.new }
{
    heads[..kinds::STANDARD].copy_from_slice(&[0, 1, 2]);
    for x in kinds::STANDARD..n {
        heads[x] = found_head(c, &heads[..x], x) as u16;
    }
}

// The types of a table, the standard ones too, for which an array of 258 has room.
pub fn known_types(c: &code::Slots) -> usize
    ensures { (3 ≤ result) × (result ≤ 258) }
{
    kinds::STANDARD + code::types(c).min(255)
}
