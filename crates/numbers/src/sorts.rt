// Nodes and blocks of the sort that a place asks.
#![tactic(auto, unfolding(basics::specs::Choice::both, basics::specs::Choice::between))]

ghost use Rattle.std.specs.Prelude.{◌≡◌};
ghost use Rattle.code.specs.Code.{decoded};
ghost use Rattle.numbers.specs.Tested.{variable_below, expression_below, is_block};

// Node v is below m and a variable.
pub fn variable_below(c: &code::Slots, m: usize, v: usize) -> bool
    ensures { result ≡ variable_below (decoded c.now) m v }
{
    v < m && code::is_variable(c, v)
}

// Node e is below m and an expression.
pub fn expression_below(c: &code::Slots, m: usize, e: usize) -> bool
    ensures { result ≡ expression_below (decoded c.now) m e }
{
    e < m && code::is_expression(c, e)
}

// Block b exists and is of kind k.
pub fn block_of(c: &code::Slots, k: usize, b: usize) -> bool
    ensures { result ≡ is_block (decoded c.now) k b }
{
    b < code::blocks(c) && code::block_kind(c, b) == k
}
