// Calls of other processes, and starts (11.3, 11.5, 13).
ghost use Rattle.std.specs.Prelude.{◌≡◌, true, ◌<◌, ◌≤◌};
ghost use Rattle.table.specs.Entries.{stmt_kind};
ghost use Rattle.machine.specs.Memory.{memory_of, update};
ghost use Rattle.machine.specs.Layout.{status_at, holder_at};
ghost use Rattle.machine.specs.Lent.{State};
ghost use Rattle.code.specs.Code.{decoded};
ghost use Rattle.effects.specs.Effects.{StatementLeaves};
ghost use Rattle.evaluation.specs.Acting.{ArgumentRows, Acting};
ghost use Rattle.calls.specs.Entering.{Invoking, Entering};
ghost use Rattle.machine.specs.Statements.{can_serve};
ghost use Rattle.calls.specs.Serving.{Serving, Starting, Beginning};

use super::arguments::arguments;
use super::frame::{frame_words, procedure_words};
use super::procedures::is_over;
use evaluation::Stack;
use operands::Context;
use transfers::references::reference;
use words::values::Failure;

// Process r can serve a call when it is started and nobody holds its variables.
fn is_free(state: &[u8], r: usize) -> bool
    requires state { State state.now }
    requires le_r { (1 ≤ r) × (r ≤ 64) }
    ensures { result ≡ can_serve (memory_of state.now) r }
{
    machine::record_word(state, r, machine::STATUS) != machine::UNSTARTED
        && machine::record_word(state, r, machine::HOLDER) == 0
}

// The frame of a call of procedure q of process r, whose arguments are the first n words of the buffer (01, A step).
#[tactic(auto, using(crate::proofs::Entering::entering_code, crate::proofs::Entering::entering_there, crate::proofs::Entering::entering_kind, crate::proofs::Entering::entering_lent, crate::proofs::Entering::entering_low, crate::proofs::Entering::entering_high, crate::proofs::Entering::entering_size))]
fn enter_process(
    c: &code::Slots,
    state: &mut [u8],
    page: &[u8],
    x: Context,
    q: usize,
    r: usize,
    buffer: &[u16],
    n: usize,
) -> u8
    requires entering { Entering c.now state.old page.now x q 256 (update (memory_of state.old) (holder_at r) x.process) r buffer.now n }
    requires le_r { (1 ≤ r) × (r ≤ 64) }
    ensures { StatementLeaves c.now state.old page.now x result state.new page.now }
{
    let size = procedure_words(c, q);
    if is_over(state, x.process, size, machine::AREA) {
        return effects::fail(state, Failure::AreaFull);
    }
    frames::push_process(c, state, x.process, q, r, size, n, buffer);
    0
}

// A call with arguments: they are all evaluated before anything is stored.
fn call_process(
    c: &code::Slots,
    k: &[u16],
    stack: &mut Stack,
    state: &mut [u8],
    page: &[u8],
    x: Context,
    q: usize,
    from: usize,
    d: usize,
    r: usize,
) -> u8
    requires acting { Acting c.now k.now state.old page.now x }
    requires invoking { Invoking c.now state.old page.now x q from d 256 (update (memory_of state.old) (holder_at r) x.process) r }
    requires argument_rows { ArgumentRows (decoded c.now) k.now from d }
    requires from_bound { (from < 65536) × ((d < 65536) × ((1 ≤ r) × (r ≤ 64))) }
    ensures { StatementLeaves c.now state.old page.now x result state.new page.now }
{
    let mut buffer = [0u16; 256];
    match arguments(c, k, stack, state, page, x, &mut buffer[..], q, from, d) {
        Err(f) => effects::fail(state, f),
        Ok(n) => enter_process(c, state, page, x, q, r, &buffer[..], n),
    }
}

// A call of process r, which can serve it.
fn call_on(
    c: &code::Slots,
    k: &[u16],
    stack: &mut Stack,
    state: &mut [u8],
    page: &[u8],
    x: Context,
    r: usize,
) -> u8
    requires acting { Acting c.now k.now state.old page.now x }
    requires serving { Serving c.now state.old page.now x r }
    requires r_value { can_serve (memory_of state.old) r ≡ true }
    ensures { StatementLeaves c.now state.old page.now x result state.new page.now }
{
    let q = code::stmt_b(c, x.statement);
    let from = code::stmt_c(c, x.statement);
    let d = code::stmt_d(c, x.statement);
    if d == 0 {
        let none = [0u16; 1];
        return enter_process(c, state, page, x, q, r, &none[..], 0);
    }
    call_process(c, k, stack, state, page, x, q, from, d, r)
}

// The caller waits where process r cannot serve.
#[tactic(auto, using(crate::proofs::Serving::serving_lent, crate::proofs::Serving::serving_low, crate::proofs::Serving::serving_high, crate::proofs::Serving::serving_free, crate::proofs::Serving::serving_waits))]
fn serve(
    c: &code::Slots,
    k: &[u16],
    stack: &mut Stack,
    state: &mut [u8],
    page: &[u8],
    x: Context,
    r: usize,
) -> u8
    requires acting { Acting c.now k.now state.old page.now x }
    requires serving { Serving c.now state.old page.now x r }
    ensures { StatementLeaves c.now state.old page.now x result state.new page.now }
{
    if is_free(state, r) {
        return call_on(c, k, stack, state, page, x, r);
    }
    1
}

// 11.3: a call of the process that a variable refers to.
pub fn process_call(
    c: &code::Slots,
    k: &[u16],
    stack: &mut Stack,
    state: &mut [u8],
    page: &[u8],
    x: Context,
) -> u8
    requires acting { Acting c.now k.now state.old page.now x }
    requires statement_value { stmt_kind (decoded c.now) x.statement ≡ 3 }
    ensures { StatementLeaves c.now state.old page.now x result state.new page.now }
{
    let a = code::stmt_a(c, x.statement);
    match reference(c, k, stack, state, page, x, a) {
        Err(f) => effects::fail(state, f),
        Ok(r) => serve(c, k, stack, state, page, x, r),
    }
}

// Process r, of module b, has its parameters in the first n words of the buffer.
#[tactic(auto, using(crate::proofs::Starting::beginning_framing, crate::proofs::Starting::beginning_lent, crate::proofs::Starting::beginning_words, crate::proofs::Starting::beginning_size, crate::proofs::Starting::beginning_done))]
fn begin(
    c: &code::Slots,
    state: &mut [u8],
    page: &[u8],
    x: Context,
    r: usize,
    b: usize,
    buffer: &[u16],
    n: usize,
) -> u8
    requires { Beginning c.now state.old page.now x r b buffer.now n }
    ensures { StatementLeaves c.now state.old page.now x result state.new page.now }
{
    let size = frame_words(c, b);
    let next = (x.statement + 1) as u16;
    frames::start_on(c, state, x.process, next, r, b, size, n, buffer);
    0
}

// The start of process r, which is created and not started.
fn start_created(
    c: &code::Slots,
    k: &[u16],
    stack: &mut Stack,
    state: &mut [u8],
    page: &[u8],
    x: Context,
    r: usize,
) -> u8
    requires acting { Acting c.now k.now state.old page.now x }
    requires starting { Starting c.now state.old page.now x r }
    requires r_value { memory_of state.old (status_at r) ≡ 1 }
    ensures { StatementLeaves c.now state.old page.now x result state.new page.now }
{
    let a = code::stmt_a(c, x.statement);
    let y = code::type_of(c, a);
    let b = code::type_p(c, y);
    let from = code::stmt_c(c, x.statement);
    let d = code::stmt_d(c, x.statement);
    let mut buffer = [0u16; 256];
    match arguments(c, k, stack, state, page, x, &mut buffer[..], b, from, d) {
        Err(f) => effects::fail(state, f),
        Ok(n) => begin(c, state, page, x, r, b, &buffer[..], n),
    }
}

// A process is started once (01).
#[tactic(auto, using(crate::proofs::Starting::starting_lent, crate::proofs::Starting::starting_low, crate::proofs::Starting::starting_high, crate::proofs::Starting::starting_new, crate::proofs::Starting::starting_twice))]
fn start_once(
    c: &code::Slots,
    k: &[u16],
    stack: &mut Stack,
    state: &mut [u8],
    page: &[u8],
    x: Context,
    r: usize,
) -> u8
    requires acting { Acting c.now k.now state.old page.now x }
    requires starting { Starting c.now state.old page.now x r }
    ensures { StatementLeaves c.now state.old page.now x result state.new page.now }
{
    let status = machine::record_word(state, r, machine::STATUS);
    if status == machine::UNSTARTED {
        return start_created(c, k, stack, state, page, x, r);
    }
    effects::fail(state, Failure::StartedTwice)
}

// 11.5: the start of the process that a variable refers to. (It looks like `process_call`, but for what it goes on with: that is not less as an
// argument.)
pub fn start(
    c: &code::Slots,
    k: &[u16],
    stack: &mut Stack,
    state: &mut [u8],
    page: &[u8],
    x: Context,
) -> u8
    requires acting { Acting c.now k.now state.old page.now x }
    requires statement_value { stmt_kind (decoded c.now) x.statement ≡ 5 }
    ensures { StatementLeaves c.now state.old page.now x result state.new page.now }
{
    let a = code::stmt_a(c, x.statement);
    match reference(c, k, stack, state, page, x, a) {
        Err(f) => effects::fail(state, f),
        Ok(r) => start_once(c, k, stack, state, page, x, r),
    }
}
