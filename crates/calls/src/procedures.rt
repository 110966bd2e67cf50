// Procedure calls of a process's own module (11.3, 12).
ghost use Rattle.std.specs.Prelude.{◌≡◌, ◌+◌, ◌<◌, ◌≤◌, ltb};
ghost use Rattle.table.specs.Entries.{block_count, block_kind, owner, stmt_kind};
ghost use Rattle.machine.specs.Memory.{memory_of};
ghost use Rattle.machine.specs.Layout.{top_at, depth_at};
ghost use Rattle.machine.specs.Lent.{State};
ghost use Rattle.code.specs.Code.{decoded};
ghost use Rattle.prepare.specs.Prepared.{Prepared};
ghost use Rattle.effects.specs.Effects.{StatementLeaves, Standing};
ghost use Rattle.evaluation.specs.Acting.{ArgumentRows, Acting};
ghost use Rattle.calls.specs.Entering.{limit_of, Invoking, Entering};

use super::arguments::arguments;
use super::frame::procedure_words;
use code::kinds;
use evaluation::Stack;
use operands::Context;
use words::values::Failure;

// The word of its area up to which a process may call: while it works on its own variables its module tells it (13; 02, i).
#[tactic(auto, using(crate::proofs::Limits::limit_own, crate::proofs::Limits::limit_other))]
fn limit_of(c: &code::Slots, x: Context) -> usize
    requires prepared { Prepared c.now }
    requires block_bound { (owner (decoded c.now) x.block < block_count (decoded c.now)) × (block_kind (decoded c.now) (owner (decoded c.now) x.block) ≡ 2 → ⊥) }
    ensures { result ≡ limit_of (decoded c.now) x }
{
    if x.works == x.process {
        code::room_of(c, code::block_owner(c, x.block))
    } else {
        machine::AREA
    }
}

// A frame with variables of `size` words goes above the limit in the area of process p.
pub fn is_over(state: &[u8], p: usize, size: usize, limit: usize) -> bool
    requires state { State state.now }
    requires le_p { (1 ≤ p) × ((p ≤ 64) × (size ≤ 457)) }
    ensures { result ≡ ltb limit (memory_of state.now (top_at p) + 4 + size) }
{
    let top = machine::record_word(state, p, machine::TOP);
    limit < usize::from(top) + 4 + size
}

// The frame of a call of procedure q, whose arguments are the first n words of the buffer (01, A step).
#[tactic(auto, using(crate::proofs::Entering::entering_code, crate::proofs::Entering::entering_there, crate::proofs::Entering::entering_kind, crate::proofs::Entering::entering_lent, crate::proofs::Entering::entering_low, crate::proofs::Entering::entering_high, crate::proofs::Entering::entering_size))]
fn enter_local(
    c: &code::Slots,
    state: &mut [u8],
    page: &[u8],
    x: Context,
    q: usize,
    buffer: &[u16],
    n: usize,
) -> u8
    requires { Entering c.now state.old page.now x q (limit_of (decoded c.now) x) (memory_of state.old) x.works buffer.now n }
    ensures { StatementLeaves c.now state.old page.now x result state.new page.now }
{
    let size = procedure_words(c, q);
    if is_over(state, x.process, size, limit_of(c, x)) {
        return effects::fail(state, Failure::AreaFull);
    }
    frames::push_local(c, state, x.process, q, size, n, buffer);
    0
}

// A call with arguments: they are all evaluated before anything is stored.
fn call_local(
    c: &code::Slots,
    k: &[u16],
    stack: &mut Stack,
    state: &mut [u8],
    page: &[u8],
    x: Context,
    q: usize,
    from: usize,
    d: usize,
) -> u8
    requires acting { Acting c.now k.now state.old page.now x }
    requires invoking { Invoking c.now state.old page.now x q from d (limit_of (decoded c.now) x) (memory_of state.old) x.works }
    requires argument_rows { ArgumentRows (decoded c.now) k.now from d }
    requires from_bound { (from < 65536) × (d < 65536) }
    ensures { StatementLeaves c.now state.old page.now x result state.new page.now }
{
    let mut buffer = [0u16; 256];
    match arguments(c, k, stack, state, page, x, &mut buffer[..], q, from, d) {
        Err(f) => effects::fail(state, f),
        Ok(n) => enter_local(c, state, page, x, q, &buffer[..], n),
    }
}

// 11.3: a call within the module.
pub fn local_call(
    c: &code::Slots,
    k: &[u16],
    stack: &mut Stack,
    state: &mut [u8],
    page: &[u8],
    x: Context,
) -> u8
    requires acting { Acting c.now k.now state.old page.now x }
    requires statement_value { stmt_kind (decoded c.now) x.statement ≡ 2 }
    ensures { StatementLeaves c.now state.old page.now x result state.new page.now }
{
    let q = code::stmt_a(c, x.statement);
    let from = code::stmt_c(c, x.statement);
    let d = code::stmt_d(c, x.statement);
    if d == 0 {
        let none = [0u16; 1];
        return enter_local(c, state, page, x, q, &none[..], 0);
    }
    call_local(c, k, stack, state, page, x, q, from, d)
}

// The end of a call: the process stands after the call statement, where it stood before (12.2, 13).
#[tactic(auto, using(crate::proofs::Ending::ends))]
fn return_from(c: &code::Slots, state: &mut [u8], page: &[u8], x: Context) -> u8
    requires standing { Standing c.now state.old page.now x }
    requires statement_value { stmt_kind (decoded c.now) x.statement ≡ 13 }
    requires fact { memory_of state.old (depth_at x.process) ≡ 0 → ⊥ }
    ensures { StatementLeaves c.now state.old page.now x result state.new page.now }
{
    let call = machine::area_word(state, x.process, x.frame + 1);
    if code::stmt_kind(c, usize::from(call)) == kinds::PROCESS_CALL {
        frames::pop_process(state, x.process, call);
        return 0;
    }
    frames::pop_local(state, x.process, call);
    0
}

// The end of a block ends the process, or the call that it executes (12.2, 13).
#[tactic(auto, using(crate::proofs::Ending::ends))]
pub fn block_end(c: &code::Slots, state: &mut [u8], page: &[u8], x: Context) -> u8
    requires standing { Standing c.now state.old page.now x }
    requires statement_value { stmt_kind (decoded c.now) x.statement ≡ 13 }
    ensures { StatementLeaves c.now state.old page.now x result state.new page.now }
{
    let depth = machine::record_word(state, x.process, machine::DEPTH);
    if depth == 0 {
        frames::end_process(state, x.process);
        return 2;
    }
    return_from(c, state, page, x)
}
