// The types of nodes, found once for all nodes into a lent array; types that match.
#![tactic(auto, using(crate::proofs::Finding::finding, crate::proofs::Matching::matchings), unfolding(crate::specs::Types::field_of, crate::specs::Types::element_of, crate::specs::Types::unary_type, crate::specs::Types::binary_type, crate::specs::Types::operand_type, crate::specs::Match::span, crate::specs::Match::elements, crate::specs::Match::is_string))]

ghost use Rattle.std.specs.Prelude.{◌≡◌, ◌+◌, ◌-◌, ◌≤◌, ◌<◌};
ghost use Rattle.basics.specs.Course.{upto};
ghost use Rattle.basics.specs.Holds.{Holds};
ghost use Rattle.code.specs.Code.{decoded};
ghost use Rattle.table.specs.Reading.{Field};
ghost use Rattle.types.specs.Types.{field_of, element_of, unary_type, binary_type, operand_type, node_type, type_of, no_type, numbered, evened, type_of_node};
ghost use Rattle.types.specs.Kept.{Room, Types};
ghost use Rattle.types.specs.Match.{offset, span, elements, is_string, is_text, characters, same_number, matching, is_equal, is_fit};

use code::{kinds, operators};

// No type has this number. (No Option: `type_of` of specs/Types, by which public contracts go, gives a number for every node.)
const NO_TYPE: usize = 65535;

// The type of field i of the type x.
fn field_of(c: &code::Slots, x: usize, i: usize) -> usize
    ensures { Field (field_of (decoded c.now) x i) result }
{
    if code::type_kind(c, x) == kinds::RECORD && i < code::type_q(c, x) {
        code::field_type(c, code::type_p(c, x) + i)
    } else {
        NO_TYPE
    }
}

// The type of the elements of the type x.
fn element_of(c: &code::Slots, x: usize) -> usize
    ensures { Field (element_of (decoded c.now) x) result }
{
    if code::type_kind(c, x) == kinds::ARRAY {
        code::type_q(c, x)
    } else {
        NO_TYPE
    }
}

fn unary_type(o: usize, x: usize) -> usize
    requires { x < 65536 }
    ensures { Field (unary_type o x) result }
{
    if o == operators::NOT {
        x
    } else {
        kinds::INTEGER
    }
}

fn binary_type(o: usize, x: usize) -> usize
    requires { x < 65536 }
    ensures { Field (binary_type o x) result }
{
    match o {
        ..=operators::NOT_LESS => kinds::BOOLEAN,
        ..=operators::MODULUS => kinds::INTEGER,
        _ => x,
    }
}

// The type of a node of kinds 2 to 6 whose first operand has type x.
fn operand_type(c: &code::Slots, n: usize, x: usize) -> usize
    requires { x < 65536 }
    ensures { Field (operand_type (decoded c.now) n x) result }
{
    match code::node_kind(c, n) {
        kinds::FIELD => field_of(c, x, code::node_q(c, n)),
        kinds::ELEMENT => element_of(c, x),
        kinds::VALUE => x,
        kinds::UNARY => unary_type(code::node_q(c, n), x),
        kinds::BINARY => binary_type(code::node_v(c, n), x),
        _ => NO_TYPE,
    }
}

// The type of node p where it stands before node n.
fn before(c: &code::Slots, types: &[u16], n: usize, p: usize) -> usize
    requires { Holds (type_of (decoded c.now)) n types.now }
    ensures { Field (upto no_type (node_type (decoded c.now)) n p) result }
{
    if p < n {
        usize::from(types[p])
    } else {
        NO_TYPE
    }
}

// The type of node n, below the count, where those of the nodes before it are known.
fn node_type(c: &code::Slots, types: &[u16], n: usize) -> usize
    requires { Holds (type_of (decoded c.now)) n types.now }
    ensures { Field (type_of (decoded c.now) n) result }
{
    if code::nodes(c) <= n {
        return NO_TYPE;
    }
    let p = code::node_p(c, n);
    match code::node_kind(c, n) {
        kinds::CONSTANT => p,
        kinds::WHOLE => code::var_type(c, p),
        kinds::TRANSFER => code::node_q(c, n),
        _ => operand_type(c, n, before(c, types, n, p)),
    }
}

// Finds the types of all nodes.
pub fn find_types(c: &code::Slots, types: &mut [u16])
    requires { Room (decoded c.now) types.old }
    ensures { Types (decoded c.now) types.new }
{
    for n in 0..code::nodes(c) {
        types[n] = node_type(c, types, n) as u16;
    }
}

// The type of node n.
pub fn type_of(c: &code::Slots, types: &[u16], n: usize) -> usize
    requires { Types (decoded c.now) types.now }
    ensures { Field (type_of (decoded c.now) n) result }
{
    if n < code::nodes(c) {
        usize::from(types[n])
    } else {
        NO_TYPE
    }
}

// 32,768 more than the integer that a word stands for.
pub fn offset_of(v: usize) -> usize
    requires { v < 65536 }
    ensures { Field (offset v) result }
{
    (v + 32768) % 65536
}

// How many index values there are from low to high.
fn span_of(low: usize, high: usize) -> usize
    requires { (low < 65536) × (high < 65536) }
    ensures { (result ≡ span low high) × (result ≤ 65536) }
{
    (offset_of(high) + 1).saturating_sub(offset_of(low))
}

// How many elements an array type has.
pub fn elements_of(c: &code::Slots, x: usize) -> usize
    ensures { (result ≡ elements (decoded c.now) x) × (result ≤ 65536) }
{
    span_of(code::type_low(c, x), code::type_high(c, x))
}

pub fn is_string(c: &code::Slots, x: usize) -> bool
    ensures { result ≡ is_string (decoded c.now) x }
{
    code::type_kind(c, x) == kinds::ARRAY && code::type_q(c, x) == kinds::CHARACTER
}

// An odd string gains character 0.
pub fn evened_of(n: usize) -> usize
    requires { n < 65536 }
    ensures { (result ≡ evened n) × (result ≤ 65536) }
{
    n + n % 2
}

// The type of node n is a string type.
fn is_text(c: &code::Slots, types: &[u16], n: usize) -> bool
    requires { Types (decoded c.now) types.now }
    ensures { result ≡ is_text (decoded c.now) (type_of_node (decoded c.now) n) }
{
    code::is_string(c, n) || is_string(c, type_of(c, types, n))
}

// Its characters.
fn characters_of(c: &code::Slots, types: &[u16], n: usize) -> usize
    requires { Types (decoded c.now) types.now }
    ensures { result ≡ characters (decoded c.now) (type_of_node (decoded c.now) n) }
{
    if code::is_string(c, n) {
        evened_of(code::node_q(c, n))
    } else {
        elements_of(c, type_of(c, types, n))
    }
}

// The type of node n is the one of number y.
fn is_numbered(c: &code::Slots, types: &[u16], n: usize, y: usize) -> bool
    requires { Types (decoded c.now) types.now }
    ensures { result ≡ same_number (type_of_node (decoded c.now) n) (numbered y) }
{
    !code::is_string(c, n) && type_of(c, types, n) == y
}

// The types of nodes p and q are one of one number.
fn same_number(c: &code::Slots, types: &[u16], p: usize, q: usize) -> bool
    requires { Types (decoded c.now) types.now }
    ensures { result ≡ same_number (type_of_node (decoded c.now) p) (type_of_node (decoded c.now) q) }
{
    !code::is_string(c, q) && is_numbered(c, types, p, type_of(c, types, q))
}

// The types of nodes p and q are equal.
pub fn are_equal(c: &code::Slots, types: &[u16], p: usize, q: usize) -> bool
    requires { Types (decoded c.now) types.now }
    ensures { result ≡ is_equal (matching (decoded c.now) (type_of_node (decoded c.now) p) (type_of_node (decoded c.now) q)) }
{
    same_number(c, types, p, q)
        || (is_text(c, types, p)
            && is_text(c, types, q)
            && characters_of(c, types, p) == characters_of(c, types, q))
}

// The type of node n is equal to, or fitted to, the one of number y.
pub fn is_fit(c: &code::Slots, types: &[u16], n: usize, y: usize) -> bool
    requires { Types (decoded c.now) types.now }
    ensures { result ≡ is_fit (matching (decoded c.now) (type_of_node (decoded c.now) n) (numbered y)) }
{
    is_numbered(c, types, n, y) || (is_text(c, types, n) && is_string(c, y))
}
