// Assignments (11.2): the variable is selected, then the value is found, then its words are stored. A string constant has no operation in
// the plan: its characters are stored directly.
ghost use Rattle.std.specs.Prelude.{◌≡◌, false};
ghost use Rattle.table.specs.Entries.{node_kind, stmt_kind, stmt_b};
ghost use Rattle.machine.specs.Memory.{memory_of};
ghost use Rattle.machine.specs.Lent.{State, Becomes};
ghost use Rattle.code.specs.Code.{decoded};
ghost use Rattle.operands.specs.Answers.{single, OneWord};
ghost use Rattle.effects.specs.Effects.{StatementLeaves};
ghost use Rattle.evaluation.specs.Acting.{Acting};
ghost use Rattle.transfers.specs.Assignments.{Assigning, Copying, copied};

use code::kinds;
use evaluation::{Stack, eval, retrieve_place, select};
use operands::Context;
use operands::packed::FAILURES;
use operands::places::{is_single, node_words};

// The n words from `from` on, to `to`, directly (02, d), which are marked (02, g); then the process goes on.
#[tactic(auto, using(crate::proofs::Assigning::copy_returns))]
fn copy(state: &mut [u8], x: Context, from: usize, to: usize, n: usize)
    requires state { State state.old }
    requires copying { Copying x from to n }
    ensures { Becomes state.new (copied (memory_of state.old) x from to n) }
{
    frames::assign_words(state, from, to, n);
    effects::go_on(state, x);
}

// A value of one word, to location i.
fn assign_word(
    c: &code::Slots,
    k: &[u16],
    stack: &mut Stack,
    state: &mut [u8],
    page: &[u8],
    x: Context,
    i: usize,
) -> u8
    requires acting { Acting c.now k.now state.old page.now x }
    requires assigning { Assigning c.now state.old page.now x i }
    requires one_word { OneWord (decoded c.now) (stmt_b (decoded c.now) x.statement) }
    ensures { StatementLeaves c.now state.old page.now x result state.new page.now }
{
    let b = code::stmt_b(c, x.statement);
    let v = eval(c, k, stack, state, page, x, b);
    if FAILURES <= v {
        return effects::fail_by(state, v);
    }
    frames::store_word(state, i, v as u16);
    effects::go_on(state, x);
    0
}

// The value of a variable (8.7), all of whose words must be marked (02, g).
fn assign_words(
    c: &code::Slots,
    k: &[u16],
    stack: &mut Stack,
    state: &mut [u8],
    page: &[u8],
    x: Context,
    i: usize,
) -> u8
    requires acting { Acting c.now k.now state.old page.now x }
    requires assigning { Assigning c.now state.old page.now x i }
    requires statement_value { node_kind (decoded c.now) (stmt_b (decoded c.now) x.statement) ≡ 4 }
    requires statement_value_2 { single (decoded c.now) (stmt_b (decoded c.now) x.statement) ≡ false }
    ensures { StatementLeaves c.now state.old page.now x result state.new page.now }
{
    let b = code::stmt_b(c, x.statement);
    let l = retrieve_place(c, k, stack, state, page, x, b);
    if FAILURES <= l {
        return effects::fail_by(state, l);
    }
    copy(state, x, l as usize, i, node_words(c, b));
    0
}

// A string constant (02, b). The page is left what it is.
#[tactic(auto, using(crate::proofs::Assigning::assigns))]
fn assign_text(c: &code::Slots, state: &mut [u8], page: &[u8], x: Context, i: usize) -> u8
    requires assigning { Assigning c.now state.old page.now x i }
    requires statement_value { node_kind (decoded c.now) (stmt_b (decoded c.now) x.statement) ≡ 8 }
    ensures { StatementLeaves c.now state.old page.now x result state.new page.now }
{
    let b = code::stmt_b(c, x.statement);
    let p = code::node_p(c, b);
    let q = code::node_q(c, b);
    frames::assign_text(c, state, i, p, q);
    effects::go_on(state, x);
    0
}

// The value, to location i: one of several words is a string constant or that of a variable.
#[tactic(auto, using(crate::proofs::Assigning::assigns))]
fn assign_at(
    c: &code::Slots,
    k: &[u16],
    stack: &mut Stack,
    state: &mut [u8],
    page: &[u8],
    x: Context,
    i: usize,
) -> u8
    requires acting { Acting c.now k.now state.old page.now x }
    requires assigning { Assigning c.now state.old page.now x i }
    ensures { StatementLeaves c.now state.old page.now x result state.new page.now }
{
    let b = code::stmt_b(c, x.statement);
    if is_single(c, b) {
        return assign_word(c, k, stack, state, page, x, i);
    }
    if code::node_kind(c, b) == kinds::STRING {
        return assign_text(c, state, page, x, i);
    }
    assign_words(c, k, stack, state, page, x, i)
}

// 11.2.
pub fn assign(
    c: &code::Slots,
    k: &[u16],
    stack: &mut Stack,
    state: &mut [u8],
    page: &[u8],
    x: Context,
) -> u8
    requires acting { Acting c.now k.now state.old page.now x }
    requires statement_value { stmt_kind (decoded c.now) x.statement ≡ 1 }
    ensures { StatementLeaves c.now state.old page.now x result state.new page.now }
{
    let a = code::stmt_a(c, x.statement);
    let l = select(c, k, stack, state, page, x, a);
    if FAILURES <= l {
        return effects::fail_by(state, l);
    }
    assign_at(c, k, stack, state, page, x, l as usize)
}
