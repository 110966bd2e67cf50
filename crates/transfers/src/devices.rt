// Write statements (12.3): the address, the value, then the test of the address (01, A step).
ghost use Rattle.std.specs.Prelude.{◌≡◌, ◌≤◌, ◌<◌, length};
ghost use Rattle.table.specs.Entries.{stmt_kind};
ghost use Rattle.machine.specs.Memory.{memory_of};
ghost use Rattle.machine.specs.Lent.{State};
ghost use Rattle.machine.specs.Step.{settled};
ghost use Rattle.machine.specs.Layout.{page_size};
ghost use Rattle.code.specs.Code.{decoded};
ghost use Rattle.effects.specs.Effects.{Stepped, StatementLeaves};
ghost use Rattle.evaluation.specs.Acting.{Acting};
ghost use Rattle.transfers.specs.Devices.{Writing, writes};

use evaluation::{Stack, eval};
use operands::Context;
use operands::packed::FAILURES;

// The word v, to the device location with this address.
#[tactic(auto, using(crate::proofs::Writing::writings))]
fn write_word(state: &mut [u8], page: &mut [u8], x: Context, address: u16, v: u16) -> u8
    requires state { State state.old }
    requires page_len { length page.old ≡ page_size }
    requires le_process { (1 ≤ x.process) × ((x.process ≤ 64) × (x.statement < 65535)) }
    ensures { Stepped result state.new page.new (settled (memory_of state.old) (memory_of page.old) (writes (memory_of state.old) (memory_of page.old) x address v)) }
{
    match words::devices::write_device(page, address, v) {
        Err(f) => effects::fail(state, f),
        Ok(_) => {
            effects::go_on(state, x);
            0
        }
    }
}

// The value, then the store, where the address is known.
fn write_value(
    c: &code::Slots,
    k: &[u16],
    stack: &mut Stack,
    state: &mut [u8],
    page: &mut [u8],
    x: Context,
    address: u16,
) -> u8
    requires acting { Acting c.now k.now state.old page.old x }
    requires writing { Writing c.now state.old page.old x address }
    ensures { StatementLeaves c.now state.old page.old x result state.new page.new }
{
    let b = code::stmt_b(c, x.statement);
    let v = eval(c, k, stack, state, page, x, b);
    if FAILURES <= v {
        return effects::fail_by(state, v);
    }
    write_word(state, page, x, address, v as u16)
}

// 12.3. (It looks like `assign`, which selects where this evaluates.)
pub fn write(
    c: &code::Slots,
    k: &[u16],
    stack: &mut Stack,
    state: &mut [u8],
    page: &mut [u8],
    x: Context,
) -> u8
    requires acting { Acting c.now k.now state.old page.old x }
    requires statement_value { stmt_kind (decoded c.now) x.statement ≡ 12 }
    ensures { StatementLeaves c.now state.old page.old x result state.new page.new }
{
    let a = code::stmt_a(c, x.statement);
    let v = eval(c, k, stack, state, page, x, a);
    if FAILURES <= v {
        return effects::fail_by(state, v);
    }
    write_value(c, k, stack, state, page, x, v as u16)
}
