// Refusal 8: a variable is its block's or its owner's, and a local call stays in its module. Each statement hands its block to the nodes that
// it uses, and each node to its operands, which stand before it.
#![tactic(auto)]

ghost use Rattle.std.specs.Prelude.{◌≡◌, true, ◌+◌, ◌≤◌, ◌<◌, length, get_or, set};
ghost use Rattle.basics.specs.Marks.{gather};
ghost use Rattle.code.specs.Code.{decoded, Decodes};
ghost use Rattle.table.specs.Entries.{node_count};
ghost use Rattle.nesting.specs.Nest.{block_step};
ghost use Rattle.table.specs.Kinds.{names, held, is_call};
ghost use Rattle.numbers.specs.Ranges.{in_range};
ghost use Rattle.uses.specs.Uses.{entry_uses, used_once};
ghost use Rattle.scopes.specs.Scopes.{of_block, in_scope, stays_in, scoped};
ghost use Rattle.scopes.specs.Handed.{with_block, part_node, arg_nodes, roots, node_visible, Stays};

use code::kinds;

#[tactic(auto, unfolding(crate::specs::Scopes::of_block))]
fn is_among(c: &code::Slots, b: usize, x: usize) -> bool
    ensures { result ≡ of_block (decoded c.now) b x }
{
    let first = code::first_var(c, b);
    first <= x && x < first + code::block_vars(c, b)
}

#[tactic(auto, unfolding(crate::specs::Scopes::in_scope))]
fn is_visible(c: &code::Slots, b: usize, x: usize) -> bool
    ensures { result ≡ in_scope (decoded c.now) b x }
{
    is_among(c, b, x) || is_among(c, code::block_owner(c, b), x)
}

#[tactic(auto, using(crate::proofs::Rows::has_first))]
fn has_first(c: &code::Slots, n: usize) -> bool
    ensures { result ≡ names 5 (held (decoded c.now) 5 n 1) }
{
    // A string holds characters, and no node.
    matches!(code::node_kind(c, n), kinds::FIELD..=kinds::TRANSFER)
}

#[tactic(auto, using(crate::proofs::Rows::has_second))]
fn has_second(c: &code::Slots, n: usize) -> bool
    ensures { result ≡ names 5 (held (decoded c.now) 5 n 2) }
{
    matches!(code::node_kind(c, n), kinds::ELEMENT | kinds::BINARY)
}

#[tactic(auto, using(crate::proofs::Rows::names_a))]
fn names_a(c: &code::Slots, i: usize) -> bool
    ensures { result ≡ names 5 (held (decoded c.now) 6 i 1) }
{
    matches!(
        code::stmt_kind(c, i),
        kinds::ASSIGN
            | kinds::PROCESS_CALL
            | kinds::CREATE
            | kinds::START
            | kinds::ARM
            | kinds::WRITE
    )
}

#[tactic(auto, using(crate::proofs::Rows::names_b))]
fn names_b(c: &code::Slots, i: usize) -> bool
    ensures { result ≡ names 5 (held (decoded c.now) 6 i 2) }
{
    matches!(code::stmt_kind(c, i), kinds::ASSIGN | kinds::WRITE)
}

#[tactic(auto, using(crate::proofs::Rows::has_arguments))]
fn has_arguments(c: &code::Slots, i: usize) -> bool
    ensures { result ≡ is_call (decoded c.now) i }
{
    matches!(
        code::stmt_kind(c, i),
        kinds::LOCAL_CALL | kinds::PROCESS_CALL | kinds::START
    )
}

// Node n is used in block b.
fn hand(blocks: &mut [u16], n: usize, b: u16)
    ensures { blocks.new ≡ set blocks.old n b }
{
    if n < blocks.len() {
        blocks[n] = b;
    }
}

// The first `count` arguments that a part of a table with numbers of w bytes holds.
#[tactic(auto, using(crate::proofs::Scoping::parts))]
fn hand_part(blocks: &mut [u16], b: u16, part: &[u8], w: usize, count: usize)
    requires { (1 ≤ w) × (w ≤ 2) × (count < 65536) }
    ensures { blocks.new ≡ with_block b (gather (part_node part.now w) count) blocks.old }
{
    for k in 0..count {
        hand(blocks, table::argument(part, w, k), b);
    }
}

#[tactic(auto, unfolding(crate::specs::Handed::arg_nodes, crate::specs::Handed::with_block))]
fn hand_arguments(
    t: &[u8],
    s: table::Sections,
    c: &code::Slots,
    blocks: &mut [u16],
    b: u16,
    i: usize,
)
    requires { Decodes t.now s c.now }
    ensures { blocks.new ≡ with_block b (arg_nodes (decoded c.now) i) blocks.old }
{
    if has_arguments(c, i) {
        let count = code::stmt_d(c, i);
        let part = table::call_arguments(t, s, code::stmt_c(c, i), count);
        hand_part(blocks, b, part, s.w, count);
    }
}

// The nodes that the fields of statement i name.
#[tactic(auto, using(crate::proofs::Scoping::fields))]
fn hand_fields(c: &code::Slots, blocks: &mut [u16], b: u16, i: usize)
    ensures { blocks.new ≡ with_block b (entry_uses (decoded c.now) 6 i) blocks.old }
{
    if names_a(c, i) {
        hand(blocks, code::stmt_a(c, i), b);
        if names_b(c, i) {
            hand(blocks, code::stmt_b(c, i), b);
        }
    }
}

#[tactic(auto, using(crate::proofs::Scoping::stmt_given))]
fn hand_stmt(t: &[u8], s: table::Sections, c: &code::Slots, blocks: &mut [u16], b: u16, i: usize)
    requires { Decodes t.now s c.now }
    ensures { blocks.new ≡ with_block b (roots (decoded c.now) i) blocks.old }
{
    hand_fields(c, blocks, b, i);
    hand_arguments(t, s, c, blocks, b, i);
}

// A local call from block b stays in its module.
#[tactic(auto, unfolding(crate::specs::Scopes::stays_in))]
fn stays_in(c: &code::Slots, i: usize, b: usize) -> bool
    ensures { result ≡ stays_in (decoded c.now) i b }
{
    code::stmt_kind(c, i) != kinds::LOCAL_CALL
        || code::block_owner(c, code::stmt_a(c, i)) == code::block_owner(c, b)
}

// The block of the statement after i, where b is that of i.
#[tactic(auto, unfolding(nesting::specs::Nest::block_step))]
fn block_step(c: &code::Slots, i: usize, b: usize) -> usize
    requires { b < 65536 }
    ensures { (result ≡ block_step (decoded c.now) i b) × (result ≤ b + 1) }
{
    if code::stmt_kind(c, i) == kinds::BLOCK_END {
        return b + 1;
    }
    b
}

// Hands the block of each statement to the nodes that it uses. Whether local calls stay in their modules.
#[tactic(auto, using(crate::proofs::Handing::handings))]
fn hand_stmts(t: &[u8], s: table::Sections, c: &code::Slots, blocks: &mut [u16]) -> bool
    requires decodes { Decodes t.now s c.now }
    requires c_in_bounds { node_count (decoded c.now) ≤ length blocks.old }
    ensures { Stays (decoded c.now) result blocks.new }
{
    let mut b = 0;
    for i in 0..code::statements(c) {
        if !stays_in(c, i, b) {
            return false;
        }
        hand_stmt(t, s, c, blocks, b as u16, i);
        b = block_step(c, i, b);
    }
    true
}

// As `hand_fields` for statements. (One function for both would take four readers as arguments.)
#[tactic(auto, using(crate::proofs::Scoping::operands))]
fn hand_operands(c: &code::Slots, blocks: &mut [u16], b: u16, n: usize)
    ensures { blocks.new ≡ with_block b (entry_uses (decoded c.now) 5 n) blocks.old }
{
    if has_first(c, n) {
        hand(blocks, code::node_p(c, n), b);
        if has_second(c, n) {
            hand(blocks, code::node_q(c, n), b);
        }
    }
}

// Node n, in the block that it was handed, which it hands on.
#[tactic(auto, using(crate::proofs::Scoping::whole_none), unfolding(crate::specs::Handed::node_visible))]
fn node_scoped(c: &code::Slots, blocks: &mut [u16], n: usize) -> bool
    requires { n < length blocks.old }
    ensures fits { result ≡ node_visible (decoded c.now) n (get_or blocks.old n 0) }
    ensures hands { blocks.new ≡ with_block (get_or blocks.old n 0) (entry_uses (decoded c.now) 5 n) blocks.old }
{
    let b = blocks[n];
    if code::node_kind(c, n) == kinds::WHOLE {
        return is_visible(c, usize::from(b), code::node_p(c, n));
    }
    hand_operands(c, blocks, b, n);
    true
}

// From the last node to the first: the user of a node is a statement or stands after it.
#[tactic(auto, using(crate::proofs::Handing::downs))]
fn nodes_scoped(c: &code::Slots, blocks: &mut [u16]) -> bool
    requires c_value { in_range (decoded c.now) ≡ true }
    requires c_value_2 { used_once (decoded c.now) ≡ true }
    requires stays { Stays (decoded c.now) true blocks.old }
    ensures { result ≡ scoped (decoded c.now) }
{
    for n in (0..code::nodes(c)).rev() {
        if !node_scoped(c, blocks, n) {
            return false;
        }
    }
    true
}

// Whether a table keeps the rule of refusal 8. `blocks` is lent, with room for a block for each node.
pub fn all_scoped(t: &[u8], s: table::Sections, c: &code::Slots, blocks: &mut [u16]) -> bool
    requires decodes { Decodes t.now s c.now }
    requires c_value { in_range (decoded c.now) ≡ true }
    requires c_value_2 { used_once (decoded c.now) ≡ true }
    requires c_in_bounds { node_count (decoded c.now) ≤ length blocks.old }
    ensures { result ≡ scoped (decoded c.now) }
{
    hand_stmts(t, s, c, blocks) && nodes_scoped(c, blocks)
}
