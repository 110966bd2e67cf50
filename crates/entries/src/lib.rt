// Refusal 3: kinds, modes and operators are known, and unused fields are 0.
#![tactic(auto, unfolding(basics::specs::Choice::both, basics::specs::Choice::between))]

ghost use Rattle.std.specs.Prelude.{◌≡◌, ◌+◌, ◌<◌};
ghost use Rattle.basics.specs.Choice.{all_below};
ghost use Rattle.code.specs.Code.{decoded};
ghost use Rattle.table.specs.Entries.{type_count, var_count, block_count, node_count, stmt_count};
ghost use Rattle.entries.specs.Tested.{spare, type_known, var_known, block_known, uses_q, uses_v, operator_known, node_known, uses_a, uses_b, uses_args, uses_link, operands_known, args_known, stmt_known, declarations_known};
ghost use Rattle.entries.specs.Known.{known};

use code::{kinds, operators};

// An unused field is 0.
fn spare(used: bool, x: usize) -> bool
    ensures { result ≡ spare used x }
{
    used || x == 0
}

// Type 3 + i.
fn type_known(c: &code::Slots, i: usize) -> bool
    requires { i < 65536 }
    ensures { result ≡ type_known (decoded c.now) i }
{
    let k = code::type_kind(c, kinds::STANDARD + i);
    (kinds::RECORD..=kinds::PROCESS).contains(&k)
        && spare(k <= kinds::ARRAY, code::type_q(c, kinds::STANDARD + i))
        && spare(k == kinds::ARRAY, code::type_low(c, kinds::STANDARD + i))
        && spare(k == kinds::ARRAY, code::type_high(c, kinds::STANDARD + i))
}

fn var_known(c: &code::Slots, i: usize) -> bool
    ensures { result ≡ var_known (decoded c.now) i }
{
    code::var_mode(c, i) <= kinds::VAR_PARAMETER
}

fn block_known(c: &code::Slots, i: usize) -> bool
    ensures { result ≡ block_known (decoded c.now) i }
{
    code::block_kind(c, i) <= kinds::PROCEDURE
}

fn uses_q(k: usize) -> bool
    ensures { result ≡ uses_q k }
{
    matches!(k, kinds::FIELD..=kinds::ELEMENT | kinds::UNARY..)
}

fn uses_v(k: usize) -> bool
    ensures { result ≡ uses_v k }
{
    matches!(k, kinds::CONSTANT | kinds::BINARY)
}

fn operator_known(c: &code::Slots, i: usize) -> bool
    ensures { result ≡ operator_known (decoded c.now) i }
{
    let k = code::node_kind(c, i);
    match k {
        kinds::UNARY => (operators::MINUS..=operators::VAL).contains(&code::node_q(c, i)),
        kinds::BINARY => (operators::EQUAL..=operators::OR).contains(&code::node_v(c, i)),
        _ => true,
    }
}

fn node_known(c: &code::Slots, i: usize) -> bool
    ensures { result ≡ node_known (decoded c.now) i }
{
    let k = code::node_kind(c, i);
    k <= kinds::STRING
        && spare(uses_q(k), code::node_q(c, i))
        && spare(uses_v(k), code::node_v(c, i))
        && operator_known(c, i)
}

fn uses_a(k: usize) -> bool
    ensures { result ≡ uses_a k }
{
    matches!(k, kinds::ASSIGN..=kinds::START | kinds::ARM | kinds::WRITE..=kinds::BLOCK_END)
}

fn uses_b(k: usize) -> bool
    ensures { result ≡ uses_b k }
{
    matches!(k, kinds::ASSIGN | kinds::PROCESS_CALL | kinds::WRITE)
}

fn uses_args(k: usize) -> bool
    ensures { result ≡ uses_args k }
{
    matches!(k, kinds::LOCAL_CALL | kinds::PROCESS_CALL | kinds::START)
}

fn uses_link(k: usize) -> bool
    ensures { result ≡ uses_link k }
{
    matches!(k, kinds::ARM | kinds::END)
}

fn operands_known(c: &code::Slots, i: usize) -> bool
    ensures { result ≡ operands_known (decoded c.now) i }
{
    let k = code::stmt_kind(c, i);
    spare(uses_a(k), code::stmt_a(c, i)) && spare(uses_b(k), code::stmt_b(c, i))
}

fn args_known(c: &code::Slots, i: usize) -> bool
    ensures { result ≡ args_known (decoded c.now) i }
{
    let k = code::stmt_kind(c, i);
    spare(uses_args(k), code::stmt_c(c, i)) && spare(uses_args(k), code::stmt_d(c, i))
}

fn stmt_known(c: &code::Slots, i: usize) -> bool
    ensures { result ≡ stmt_known (decoded c.now) i }
{
    let k = code::stmt_kind(c, i);
    k <= kinds::BLOCK_END
        && operands_known(c, i)
        && args_known(c, i)
        && spare(uses_link(k), code::stmt_link(c, i))
}

fn types_known(c: &code::Slots) -> bool
    ensures { result ≡ all_below (type_count (decoded c.now)) (type_known (decoded c.now)) }
{
    (0..code::types(c)).all(|i| type_known(c, i))
}

fn vars_known(c: &code::Slots) -> bool
    ensures { result ≡ all_below (var_count (decoded c.now)) (var_known (decoded c.now)) }
{
    (0..code::variables(c)).all(|i| var_known(c, i))
}

fn blocks_known(c: &code::Slots) -> bool
    ensures { result ≡ all_below (block_count (decoded c.now)) (block_known (decoded c.now)) }
{
    (0..code::blocks(c)).all(|i| block_known(c, i))
}

fn nodes_known(c: &code::Slots) -> bool
    ensures { result ≡ all_below (node_count (decoded c.now)) (node_known (decoded c.now)) }
{
    (0..code::nodes(c)).all(|i| node_known(c, i))
}

fn stmts_known(c: &code::Slots) -> bool
    ensures { result ≡ all_below (stmt_count (decoded c.now)) (stmt_known (decoded c.now)) }
{
    (0..code::statements(c)).all(|i| stmt_known(c, i))
}

fn declarations_known(c: &code::Slots) -> bool
    ensures { result ≡ declarations_known (decoded c.now) }
{
    types_known(c) && vars_known(c) && blocks_known(c)
}

// Whether the table escapes refusal 3.
#[tactic(auto, using(crate::proofs::Rows::known_tested), unfolding(basics::specs::Choice::both))]
pub fn all_known(c: &code::Slots) -> bool
    ensures { result ≡ known (decoded c.now) }
{
    declarations_known(c) && nodes_known(c) && stmts_known(c)
}
