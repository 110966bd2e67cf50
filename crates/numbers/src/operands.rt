// Arguments, nodes and statements: what their fields name.
#![tactic(auto, using(crate::proofs::Rows::rows_tested), unfolding(basics::specs::Choice::both, basics::specs::Choice::between, crate::specs::Operands::place_ranged))]

ghost use Rattle.std.specs.Prelude.{◌≡◌, ◌+◌, ◌<◌};
ghost use Rattle.basics.specs.Choice.{all_below};
ghost use Rattle.code.specs.Code.{decoded};
ghost use Rattle.table.specs.Entries.{arg_count, node_count, stmt_count};
ghost use Rattle.types.specs.Kept.{Types};
ghost use Rattle.numbers.specs.Sorts.{entry_ranged};
ghost use Rattle.numbers.specs.Operands.{place_ranged, node_ranged};
ghost use Rattle.numbers.specs.Tested.{p_ranged, q_ranged, a_ranged, b_ranged, link_ranged};

use super::sorts;
use code::kinds;

pub fn all_args(c: &code::Slots) -> bool
    ensures { result ≡ all_below (arg_count (decoded c.now)) (entry_ranged (decoded c.now) 4) }
{
    let nodes = code::nodes(c);
    (0..code::arguments(c)).all(|i| code::arg_node(c, i) < nodes)
}

// The first operand of node n.
fn p_ranged(c: &code::Slots, n: usize) -> bool
    ensures { result ≡ p_ranged (decoded c.now) n }
{
    let p = code::node_p(c, n);
    match code::node_kind(c, n) {
        kinds::CONSTANT => p <= kinds::CHARACTER,
        kinds::WHOLE => p < code::variables(c),
        kinds::FIELD..=kinds::VALUE => sorts::variable_below(c, n, p),
        kinds::UNARY..=kinds::TRANSFER => sorts::expression_below(c, n, p),
        _ => true,
    }
}

// The place q of a field in a variable of type x.
fn place_ranged(c: &code::Slots, x: usize, q: usize) -> bool
    ensures { result ≡ place_ranged (decoded c.now) x q }
{
    code::type_kind(c, x) != kinds::RECORD || q < code::type_q(c, x)
}

// The second operand of node n.
fn q_ranged(c: &code::Slots, types: &[u16], n: usize) -> bool
    requires { Types (decoded c.now) types.now }
    ensures { result ≡ q_ranged (decoded c.now) n }
{
    let q = code::node_q(c, n);
    match code::node_kind(c, n) {
        kinds::FIELD => place_ranged(c, types::type_of(c, types, code::node_p(c, n)), q),
        kinds::ELEMENT | kinds::BINARY => sorts::expression_below(c, n, q),
        kinds::TRANSFER => q <= kinds::CHARACTER,
        kinds::STRING => (1..=255).contains(&q),
        _ => true,
    }
}

fn node_ranged(c: &code::Slots, types: &[u16], n: usize) -> bool
    requires { Types (decoded c.now) types.now }
    ensures { result ≡ node_ranged (decoded c.now) n }
{
    p_ranged(c, n) && q_ranged(c, types, n)
}

pub fn all_nodes(c: &code::Slots, types: &[u16]) -> bool
    requires { Types (decoded c.now) types.now }
    ensures { result ≡ all_below (node_count (decoded c.now)) (node_ranged (decoded c.now)) }
{
    (0..code::nodes(c)).all(|n| node_ranged(c, types, n))
}

// What a of statement i names.
fn a_ranged(c: &code::Slots, i: usize) -> bool
    ensures { result ≡ a_ranged (decoded c.now) i }
{
    let (a, nodes) = (code::stmt_a(c, i), code::nodes(c));
    match code::stmt_kind(c, i) {
        kinds::ASSIGN | kinds::PROCESS_CALL..=kinds::START => sorts::variable_below(c, nodes, a),
        kinds::ARM | kinds::WRITE => sorts::expression_below(c, nodes, a),
        kinds::LOCAL_CALL => sorts::block_of(c, kinds::PROCEDURE, a),
        kinds::BLOCK_END => a < code::blocks(c),
        _ => true,
    }
}

// What b of statement i names.
fn b_ranged(c: &code::Slots, i: usize) -> bool
    ensures { result ≡ b_ranged (decoded c.now) i }
{
    let b = code::stmt_b(c, i);
    match code::stmt_kind(c, i) {
        kinds::ASSIGN | kinds::WRITE => sorts::expression_below(c, code::nodes(c), b),
        kinds::PROCESS_CALL => sorts::block_of(c, kinds::PROCEDURE, b),
        _ => true,
    }
}

fn link_ranged(c: &code::Slots, i: usize) -> bool
    ensures { result ≡ link_ranged (decoded c.now) i }
{
    !matches!(code::stmt_kind(c, i), kinds::ARM | kinds::END)
        || code::stmt_link(c, i) < code::statements(c)
}

fn stmt_ranged(c: &code::Slots, i: usize) -> bool
    ensures { result ≡ entry_ranged (decoded c.now) 6 i }
{
    a_ranged(c, i) && b_ranged(c, i) && link_ranged(c, i)
}

pub fn all_stmts(c: &code::Slots) -> bool
    ensures { result ≡ all_below (stmt_count (decoded c.now)) (entry_ranged (decoded c.now) 6) }
{
    (0..code::statements(c)).all(|i| stmt_ranged(c, i))
}
