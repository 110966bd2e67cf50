// The structured statements (11.6 to 11.10) and skip: which arm is entered, where a process goes on after it, and when it is blocked.
#![tactic(auto)]

ghost use Rattle.std.specs.Prelude.{◌≡◌, ◌+◌, ◌≤◌, ◌<◌};
ghost use Rattle.basics.specs.Choice.{pick};
ghost use Rattle.table.specs.Entries.{stmt_count, stmt_kind, stmt_a};
ghost use Rattle.code.specs.Code.{decoded};
ghost use Rattle.machine.specs.Memory.{memory_of, update};
ghost use Rattle.machine.specs.Layout.{statement_at, holder_at};
ghost use Rattle.machine.specs.Lent.{Becomes};
ghost use Rattle.machine.specs.Entries.{repeats};
ghost use Rattle.operands.specs.Answers.{Evaluable, OneWord};
ghost use Rattle.operands.specs.Packed.{Evaluated};
ghost use Rattle.operands.specs.Ready.{context_in};
ghost use Rattle.effects.specs.Effects.{StatementLeaves, Standing};
ghost use Rattle.evaluation.specs.Acting.{GuardRows, Rowed, Acting};
ghost use Rattle.guards.specs.Guards.{opener_of, Choosable, Picked, Linked, ArmsEnd, Going};

use code::kinds;
use evaluation::{Stack, eval};
use operands::Context;
use operands::packed::FAILURES;

// The first arm whose guard is not false, with its value, or its failure (from 65,536 on); or the end of the arms, with 0. The value stays the
// engine's number (operands, packed): an enum goes through memory, and each guard that is tried would be slower.
#[derive(Clone, Copy)]
struct ArmFound {
    at: usize,
    value: u32,
}

// 11.1: the process goes on.
#[tactic(auto, using(crate::proofs::Linking::ends))]
pub fn skip(c: &code::Slots, state: &mut [u8], page: &[u8], x: Context) -> u8
    requires standing { Standing c.now state.old page.now x }
    requires statement_value { stmt_kind (decoded c.now) x.statement ≡ 0 }
    ensures { StatementLeaves c.now state.old page.now x result state.new page.now }
{
    effects::go_on(state, x);
    0
}

// The value of the guard of arm i.
#[tactic(auto, using(crate::proofs::Choosing::guards))]
fn guard(
    c: &code::Slots,
    k: &[u16],
    stack: &mut Stack,
    state: &[u8],
    page: &[u8],
    x: Context,
    i: usize,
) -> u32
    requires acting { Acting c.now k.now state.now page.now x }
    requires evaluable { Evaluable (decoded c.now) (memory_of state.now) (memory_of page.now) (context_in x) (stmt_a (decoded c.now) i) }
    requires one_word { OneWord (decoded c.now) (stmt_a (decoded c.now) i) }
    requires rowed { Rowed (decoded c.now) k.now (stmt_a (decoded c.now) i) }
    ensures { Evaluated c.now state.now page.now x (stmt_a (decoded c.now) i) result }
{
    let a = code::stmt_a(c, i);
    eval(c, k, stack, state, page, x, a)
}

// The guards of the arms from i on, in the order written (11.6). A loop along links, not over numbers, so it is a while.
#[tactic(auto, using(crate::proofs::Choosing::chooses))]
fn choose(
    c: &code::Slots,
    k: &[u16],
    stack: &mut Stack,
    state: &[u8],
    page: &[u8],
    x: Context,
    i: usize,
) -> ArmFound
    requires acting { Acting c.now k.now state.now page.now x }
    requires choosable { Choosable (decoded c.now) (memory_of state.now) (memory_of page.now) (context_in x) i }
    requires guard_rows { GuardRows (decoded c.now) k.now (stmt_count (decoded c.now)) i }
    ensures { Picked (decoded c.now) (memory_of state.now) (memory_of page.now) (context_in x) i result }
{
    let mut j = i;
    while code::stmt_kind(c, j) == kinds::ARM {
        let v = guard(c, k, stack, state, page, x, j);
        if v != 0 {
            return ArmFound { at: j, value: v };
        }
        j = code::stmt_link(c, j);
    }
    ArmFound { at: j, value: 0 }
}

// A guard is true: its arm is entered. A when or cycle then holds the variables that the process works on (11.9, 11.10, 13).
#[tactic(auto, using(crate::proofs::Opening::goings))]
fn enter(state: &mut [u8], x: Context, waits: bool, i: usize) -> u8
    requires { Going state.old x i }
    ensures { (result ≡ 0) × Becomes state.new (update (pick waits (update (memory_of state.old) (holder_at x.works) x.process) (memory_of state.old)) (statement_at x.process) (i + 1)) }
{
    let first = (i + 1) as u16;
    if waits {
        frames::enter_arm(state, x.process, x.works, first);
    } else {
        frames::go_to(state, x.process, first);
    }
    0
}

// No guard is true: the process goes on after the end i. A when or cycle is blocked, and gives the variables up (11.9, 11.10, 13).
#[tactic(auto, using(crate::proofs::Opening::goings))]
fn pass(state: &mut [u8], x: Context, waits: bool, i: usize) -> u8
    requires { Going state.old x i }
    ensures { (result ≡ pick waits 1 0) × Becomes state.new (pick waits (update (memory_of state.old) (holder_at x.works) 0) (update (memory_of state.old) (statement_at x.process) (i + 1))) }
{
    if waits {
        frames::hold(state, x.works, 0);
        1
    } else {
        frames::go_to(state, x.process, (i + 1) as u16);
        0
    }
}

// An if, while, when or cycle is followed by its first arm.
#[tactic(auto, using(crate::proofs::Opening::opening))]
pub fn open(
    c: &code::Slots,
    k: &[u16],
    stack: &mut Stack,
    state: &mut [u8],
    page: &[u8],
    x: Context,
) -> u8
    requires acting { Acting c.now k.now state.old page.now x }
    requires bound { (6 ≤ stmt_kind (decoded c.now) x.statement) × (stmt_kind (decoded c.now) x.statement ≤ 9) }
    ensures { StatementLeaves c.now state.old page.now x result state.new page.now }
{
    let waits = kinds::WHEN <= code::stmt_kind(c, x.statement);
    let first = x.statement + 1;
    let ArmFound { at, value } = choose(c, k, stack, state, page, x, first);
    if FAILURES <= value {
        return effects::fail_by(state, value);
    }
    if value == 0 {
        pass(state, x, waits, at)
    } else {
        enter(state, x, waits, at)
    }
}

// The end of the arms from i on: each arm is linked to the next, so the loop is a while.
#[tactic(auto, using(crate::proofs::Linking::links))]
fn end_of(c: &code::Slots, i: usize) -> usize
    requires { Linked (decoded c.now) i }
    ensures { ArmsEnd (decoded c.now) i result }
{
    let mut j = i;
    while code::stmt_kind(c, j) == kinds::ARM {
        j = code::stmt_link(c, j);
    }
    j
}

// Where a process goes on from the end of the arms: a while or cycle is executed again (11.8, 11.10).
#[tactic(auto, using(crate::proofs::Linking::nexts))]
fn next(k: usize, opener: usize, end: usize) -> u16
    requires { (opener < 65535) × (end < 65535) }
    ensures { result ≡ pick (repeats (opener_of k)) opener (end + 1) }
{
    match k {
        kinds::WHILE | kinds::CYCLE => opener as u16,
        _ => (end + 1) as u16,
    }
}

// An arm or end that is reached from inside: the conditional statements have been executed (11.7 to 11.10).
#[tactic(auto, using(crate::proofs::Linking::ends))]
pub fn end_arm(c: &code::Slots, state: &mut [u8], page: &[u8], x: Context) -> u8
    requires standing { Standing c.now state.old page.now x }
    requires bound { (10 ≤ stmt_kind (decoded c.now) x.statement) × (stmt_kind (decoded c.now) x.statement ≤ 11) }
    ensures { StatementLeaves c.now state.old page.now x result state.new page.now }
{
    let end = end_of(c, x.statement);
    let opener = code::stmt_link(c, end);
    let after = next(code::stmt_kind(c, opener), opener, end);
    frames::go_to(state, x.process, after);
    0
}
