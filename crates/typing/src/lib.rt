// Refusal 9: the types of operands, guards, indexes, arguments and parameters.
#![tactic(auto)]

ghost use Rattle.std.specs.Prelude.{◌≡◌, ◌+◌, ◌≤◌, ◌<◌};
ghost use Rattle.basics.specs.Choice.{all_below};
ghost use Rattle.types.specs.Match.{in_standard};
ghost use Rattle.code.specs.Code.{decoded, Decodes};
ghost use Rattle.table.specs.Entries.{node_p, node_q, stmt_a, stmt_b, node_count, stmt_count, block_count, char_count};
ghost use Rattle.table.specs.Reading.{Field};
ghost use Rattle.types.specs.Types.{type_of};
ghost use Rattle.types.specs.Kept.{Types};
ghost use Rattle.typing.specs.Typing.{element_typed, unary_typed, alike_typed, binary_typed, node_typed, argument_typed, arguments_typed, process_call_typed, start_typed, call_typed, write_typed, stmt_typed, simple, param_simple, params_simple, character_typed, typed};
ghost use Rattle.typing.specs.Parts.{parameter_in};

use code::{kinds, operators};
use types::type_of;

// The word v is a constant of the standard type x. Sizes asks the same of bounds; neither crate lies below the other.
#[tactic(auto, unfolding(types::specs::Match::in_standard))]
fn constant_typed(x: usize, v: usize) -> bool
    ensures { result ≡ in_standard x v }
{
    match x {
        kinds::BOOLEAN => v <= 1,
        kinds::CHARACTER => v <= 127,
        _ => true,
    }
}

#[tactic(auto, unfolding(crate::specs::Typing::element_typed))]
fn element_typed(c: &code::Slots, x: usize, y: usize) -> bool
    ensures { result ≡ element_typed (decoded c.now) x y }
{
    code::type_kind(c, x) == kinds::ARRAY && y == code::type_p(c, x)
}

#[tactic(auto, unfolding(crate::specs::Typing::unary_typed))]
fn unary_typed(o: usize, x: usize) -> bool
    ensures { result ≡ unary_typed o x }
{
    if o == operators::NOT {
        return x <= kinds::BOOLEAN;
    }
    x == kinds::INTEGER
}

#[tactic(auto, unfolding(crate::specs::Typing::alike_typed))]
fn alike_typed(o: usize, x: usize) -> bool
    ensures { result ≡ alike_typed o x }
{
    match o {
        ..=operators::NOT_LESS => x <= kinds::CHARACTER,
        ..=operators::MODULUS => x == kinds::INTEGER,
        _ => x <= kinds::BOOLEAN,
    }
}

// The operator o takes the types of nodes p and q.
#[tactic(auto, unfolding(crate::specs::Typing::binary_typed))]
fn binary_typed(c: &code::Slots, types: &[u16], o: usize, p: usize, q: usize) -> bool
    requires { Types (decoded c.now) types.now }
    ensures { result ≡ binary_typed (decoded c.now) o p q }
{
    if o <= operators::NOT_EQUAL {
        return types::are_equal(c, types, p, q);
    }
    let x = type_of(c, types, p);
    x == type_of(c, types, q) && alike_typed(o, x)
}

#[tactic(auto, unfolding(crate::specs::Typing::node_typed))]
fn node_typed(c: &code::Slots, types: &[u16], n: usize) -> bool
    requires { Types (decoded c.now) types.now }
    ensures { result ≡ node_typed (decoded c.now) n }
{
    match code::node_kind(c, n) {
        kinds::CONSTANT => constant_typed(code::node_p(c, n), code::node_v(c, n)),
        kinds::FIELD => {
            let x = type_of(c, types, code::node_p(c, n));
            code::type_kind(c, x) == kinds::RECORD
        }
        kinds::ELEMENT => {
            let x = type_of(c, types, code::node_p(c, n));
            element_typed(c, x, type_of(c, types, code::node_q(c, n)))
        }
        kinds::UNARY => {
            let x = type_of(c, types, code::node_p(c, n));
            unary_typed(code::node_q(c, n), x)
        }
        kinds::BINARY => {
            let o = code::node_v(c, n);
            binary_typed(c, types, o, code::node_p(c, n), code::node_q(c, n))
        }
        kinds::TRANSFER => type_of(c, types, code::node_p(c, n)) <= kinds::CHARACTER,
        _ => true,
    }
}

#[tactic(auto, unfolding(crate::specs::Typing::argument_typed))]
fn argument_typed(c: &code::Slots, types: &[u16], x: usize, n: usize) -> bool
    requires { Types (decoded c.now) types.now }
    ensures { result ≡ argument_typed (decoded c.now) x n }
{
    let p = code::var_type(c, x);
    if code::var_mode(c, x) == kinds::VAR_PARAMETER {
        return code::is_variable(c, n) && type_of(c, types, n) == p;
    }
    code::is_expression(c, n) && types::is_fit(c, types, n, p)
}

// Each of the arguments that a part holds, in numbers of w bytes, is one for its parameter, of those from x on.
fn part_typed(c: &code::Slots, types: &[u16], part: &[u8], w: usize, x: usize, count: usize) -> bool
    requires types { Types (decoded c.now) types.now }
    requires le_w { (1 ≤ w) × (w ≤ 2) × (x < 65536) × (count < 65536) }
    ensures { result ≡ all_below count (parameter_in (decoded c.now) w part.now x) }
{
    (0..count).all(|k| argument_typed(c, types, x + k, table::argument(part, w, k)))
}

// The arguments of a call of block b, `count` from `first` on.
#[tactic(auto, using(crate::proofs::Passing::arguments_each), unfolding(crate::specs::Typing::arguments_typed))]
fn arguments_typed(
    t: &[u8],
    s: table::Sections,
    c: &code::Slots,
    types: &[u16],
    b: usize,
    first: usize,
    count: usize,
) -> bool
    requires decodes { Decodes t.now s c.now }
    requires types { Types (decoded c.now) types.now }
    ensures { result ≡ arguments_typed (decoded c.now) b first count }
{
    if count != code::block_params(c, b) {
        return false;
    }
    let part = table::call_arguments(t, s, first, count);
    part_typed(c, types, part, s.w, code::first_var(c, b), count)
}

#[tactic(auto, unfolding(crate::specs::Typing::process_call_typed))]
fn process_call_typed(
    t: &[u8],
    s: table::Sections,
    c: &code::Slots,
    types: &[u16],
    x: usize,
    b: usize,
    first: usize,
    count: usize,
) -> bool
    requires decodes { Decodes t.now s c.now }
    requires types { Types (decoded c.now) types.now }
    ensures { result ≡ process_call_typed (decoded c.now) x b first count }
{
    code::type_kind(c, x) == kinds::PROCESS
        && code::block_owner(c, b) == code::type_p(c, x)
        && arguments_typed(t, s, c, types, b, first, count)
}

#[tactic(auto, unfolding(crate::specs::Typing::start_typed))]
fn start_typed(
    t: &[u8],
    s: table::Sections,
    c: &code::Slots,
    types: &[u16],
    x: usize,
    first: usize,
    count: usize,
) -> bool
    requires decodes { Decodes t.now s c.now }
    requires types { Types (decoded c.now) types.now }
    ensures { result ≡ start_typed (decoded c.now) x first count }
{
    code::type_kind(c, x) == kinds::PROCESS
        && arguments_typed(t, s, c, types, code::type_p(c, x), first, count)
}

#[tactic(auto, unfolding(crate::specs::Typing::call_typed))]
fn call_typed(t: &[u8], s: table::Sections, c: &code::Slots, types: &[u16], i: usize) -> bool
    requires decodes { Decodes t.now s c.now }
    requires types { Types (decoded c.now) types.now }
    ensures { result ≡ call_typed (decoded c.now) i }
{
    let first = code::stmt_c(c, i);
    let count = code::stmt_d(c, i);
    match code::stmt_kind(c, i) {
        kinds::LOCAL_CALL => arguments_typed(t, s, c, types, code::stmt_a(c, i), first, count),
        kinds::PROCESS_CALL => {
            let x = type_of(c, types, code::stmt_a(c, i));
            process_call_typed(t, s, c, types, x, code::stmt_b(c, i), first, count)
        }
        kinds::CREATE => {
            let x = type_of(c, types, code::stmt_a(c, i));
            code::type_kind(c, x) == kinds::PROCESS
        }
        kinds::START => {
            let x = type_of(c, types, code::stmt_a(c, i));
            start_typed(t, s, c, types, x, first, count)
        }
        _ => true,
    }
}

#[tactic(auto, unfolding(crate::specs::Typing::write_typed))]
fn write_typed(x: usize, y: usize) -> bool
    ensures { result ≡ write_typed x y }
{
    x == kinds::INTEGER && y == kinds::INTEGER
}

#[tactic(auto, unfolding(crate::specs::Typing::stmt_typed))]
fn stmt_typed(t: &[u8], s: table::Sections, c: &code::Slots, types: &[u16], i: usize) -> bool
    requires decodes { Decodes t.now s c.now }
    requires types { Types (decoded c.now) types.now }
    ensures { result ≡ stmt_typed (decoded c.now) i }
{
    match code::stmt_kind(c, i) {
        kinds::ASSIGN => types::are_equal(c, types, code::stmt_a(c, i), code::stmt_b(c, i)),
        kinds::ARM => type_of(c, types, code::stmt_a(c, i)) == kinds::BOOLEAN,
        kinds::WRITE => {
            let x = type_of(c, types, code::stmt_a(c, i));
            write_typed(x, type_of(c, types, code::stmt_b(c, i)))
        }
        _ => call_typed(t, s, c, types, i),
    }
}

#[tactic(auto, unfolding(crate::specs::Typing::simple))]
fn is_simple(c: &code::Slots, x: usize) -> bool
    ensures { result ≡ simple (decoded c.now) x }
{
    x <= kinds::CHARACTER || code::type_kind(c, x) == kinds::PROCESS
}

#[tactic(auto, unfolding(crate::specs::Typing::param_simple))]
fn param_simple(c: &code::Slots, x: usize, k: usize) -> bool
    requires { (x < 65536) × (k < 65536) }
    ensures { result ≡ param_simple (decoded c.now) x k }
{
    code::var_mode(c, x + k) == kinds::VALUE_PARAMETER && is_simple(c, code::var_type(c, x + k))
}

fn each_simple(c: &code::Slots, x: usize, count: usize) -> bool
    requires { (x < 65536) × (count < 65536) }
    ensures { result ≡ all_below count (param_simple (decoded c.now) x) }
{
    (0..count).all(|k| param_simple(c, x, k))
}

#[tactic(auto, unfolding(crate::specs::Typing::params_simple))]
fn params_simple(c: &code::Slots, b: usize) -> bool
    ensures { result ≡ params_simple (decoded c.now) b }
{
    code::block_kind(c, b) != kinds::MODULE
        || each_simple(c, code::first_var(c, b), code::block_params(c, b))
}

fn nodes_typed(c: &code::Slots, types: &[u16]) -> bool
    requires { Types (decoded c.now) types.now }
    ensures { result ≡ all_below (node_count (decoded c.now)) (node_typed (decoded c.now)) }
{
    (0..code::nodes(c)).all(|n| node_typed(c, types, n))
}

fn statements_typed(t: &[u8], s: table::Sections, c: &code::Slots, types: &[u16]) -> bool
    requires decodes { Decodes t.now s c.now }
    requires types { Types (decoded c.now) types.now }
    ensures { result ≡ all_below (stmt_count (decoded c.now)) (stmt_typed (decoded c.now)) }
{
    (0..code::statements(c)).all(|i| stmt_typed(t, s, c, types, i))
}

fn blocks_simple(c: &code::Slots) -> bool
    ensures { result ≡ all_below (block_count (decoded c.now)) (params_simple (decoded c.now)) }
{
    (0..code::blocks(c)).all(|b| params_simple(c, b))
}

// Characters are 0..127, as constants of that type are.
fn characters_typed(c: &code::Slots) -> bool
    ensures { result ≡ all_below (char_count (decoded c.now)) (character_typed (decoded c.now)) }
{
    (0..code::characters(c)).all(|i| constant_typed(kinds::CHARACTER, code::character(c, i)))
}

// Whether a table keeps the rule of refusal 9; `types` are those of its nodes.
#[tactic(auto, unfolding(crate::specs::Typing::typed))]
pub fn all_typed(t: &[u8], s: table::Sections, c: &code::Slots, types: &[u16]) -> bool
    requires decodes { Decodes t.now s c.now }
    requires types { Types (decoded c.now) types.now }
    ensures { result ≡ typed (decoded c.now) }
{
    nodes_typed(c, types)
        && statements_typed(t, s, c, types)
        && blocks_simple(c)
        && characters_typed(c)
}
