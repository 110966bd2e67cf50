// One statement of a process, by its kind (11; 12.3).
#![tactic(auto)]

ghost use Rattle.effects.specs.Effects.{StatementLeaves};
ghost use Rattle.evaluation.specs.Acting.{Acting};

use code::kinds;
use evaluation::Stack;
use operands::Context;

// The statement where its process stands: the answer, the state and the page are those of `statement_step`. A match and no table of closures:
// the kinds are closed, and what a statement borrows differs from arm to arm.
#[tactic(auto, using(crate::proofs::Performs::last_is))]
pub fn perform(
    c: &code::Slots,
    k: &[u16],
    stack: &mut Stack,
    state: &mut [u8],
    page: &mut [u8],
    x: Context,
) -> u8
    requires { Acting c.now k.now state.old page.old x }
    ensures { StatementLeaves c.now state.old page.old x result state.new page.new }
{
    match code::stmt_kind(c, x.statement) {
        kinds::SKIP => guards::skip(c, state, page, x),
        kinds::ASSIGN => transfers::assignments::assign(c, k, stack, state, page, x),
        kinds::LOCAL_CALL => calls::procedures::local_call(c, k, stack, state, page, x),
        kinds::PROCESS_CALL => calls::processes::process_call(c, k, stack, state, page, x),
        kinds::CREATE => transfers::creations::create(c, k, stack, state, page, x),
        kinds::START => calls::processes::start(c, k, stack, state, page, x),
        kinds::IF..=kinds::CYCLE => guards::open(c, k, stack, state, page, x),
        kinds::ARM..=kinds::END => guards::end_arm(c, state, page, x),
        kinds::WRITE => transfers::devices::write(c, k, stack, state, page, x),
        _ => calls::procedures::block_end(c, state, page, x),
    }
}
