// What process variables refer to (5.2).
ghost use Rattle.std.specs.Prelude.{◌≡◌, ◌<◌};
ghost use Rattle.machine.specs.Memory.{memory_of};
ghost use Rattle.machine.specs.Layout.{locations};
ghost use Rattle.machine.specs.Lent.{State};
ghost use Rattle.machine.specs.Operands.{operand};
ghost use Rattle.code.specs.Code.{decoded};
ghost use Rattle.operands.specs.Ready.{context_in};
ghost use Rattle.evaluation.specs.Acting.{Rowed, Acting};
ghost use Rattle.transfers.specs.References.{reference_of, referred_process, place_refers, referred, Referring};

use evaluation::{Stack, place_of};
use operands::Context;
use words::values::Failure;

// 0 is the empty reference.
#[tactic(auto, using(crate::proofs::Referring::references))]
fn refer(w: u16) -> Result<usize, Failure>
    ensures { referred result ≡ referred_process w }
{
    if w == 0 {
        Err(Failure::EmptyReference)
    } else {
        Ok(usize::from(w))
    }
}

// The process that the variable at location a refers to; before its value, its mark is tested (02, g).
#[tactic(auto, using(crate::proofs::Referring::references))]
fn refer_at(state: &[u8], a: usize) -> Result<usize, Failure>
    requires state { State state.now }
    requires a_lt_locations { a < locations }
    ensures { referred result ≡ place_refers (memory_of state.now) a }
{
    if marks::is_marked(state, a) {
        refer(machine::word_of(state, a))
    } else {
        Err(Failure::Unset)
    }
}

// The process that the variable of node n refers to.
#[tactic(auto, using(crate::proofs::Referring::references))]
pub fn reference(
    c: &code::Slots,
    k: &[u16],
    stack: &mut Stack,
    state: &[u8],
    page: &[u8],
    x: Context,
    n: usize,
) -> Result<usize, Failure>
    requires acting { Acting c.now k.now state.now page.now x }
    requires referring { Referring (decoded c.now) (memory_of state.now) (memory_of page.now) (context_in x) n }
    requires rowed { Rowed (decoded c.now) k.now n }
    ensures { referred result ≡ reference_of (decoded c.now) (memory_of state.now) (operand (decoded c.now) (memory_of state.now) (memory_of page.now) (context_in x) n) }
{
    let a = place_of(c, k, stack, state, page, x, n)?;
    refer_at(state, a)
}
