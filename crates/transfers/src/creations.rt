// Create statements (11.4): a new process of the variable's module, to which the variable then refers.
ghost use Rattle.std.specs.Prelude.{◌≡◌};
ghost use Rattle.table.specs.Entries.{stmt_kind};
ghost use Rattle.machine.specs.Memory.{memory_of};
ghost use Rattle.machine.specs.Lent.{WordSlice, State};
ghost use Rattle.machine.specs.Step.{settled};
ghost use Rattle.machine.specs.Layout.{page_words};
ghost use Rattle.code.specs.Code.{decoded};
ghost use Rattle.effects.specs.Effects.{Stepped, StatementLeaves};
ghost use Rattle.evaluation.specs.Acting.{Acting};
ghost use Rattle.transfers.specs.Creations.{CreatePremises, creates};

use evaluation::{Stack, place_of};
use operands::Context;
use words::values::Failure;

// A process of module `block`, for the variable at location i: the next number, or 24 while 64 processes exist (01). The page is left
// what it is.
fn create_next(state: &mut [u8], page: &[u8], x: Context, i: usize, block: usize) -> u8
    requires state { State state.old }
    requires word_slice { WordSlice page_words page.now }
    requires create_premises { CreatePremises (memory_of state.old) x i block }
    ensures { Stepped result state.new page.now (settled (memory_of state.old) (memory_of page.now) (creates (memory_of state.old) (memory_of page.now) x i block)) }
{
    let n = machine::record_word(state, 1, machine::CREATED);
    if n == machine::PROCESSES {
        return effects::fail(state, Failure::ProcessLimit);
    }
    frames::create_at(
        state,
        x.process,
        (x.statement + 1) as u16,
        usize::from(n) + 1,
        block as u16,
        i,
    );
    0
}

// 11.4.
pub fn create(
    c: &code::Slots,
    k: &[u16],
    stack: &mut Stack,
    state: &mut [u8],
    page: &[u8],
    x: Context,
) -> u8
    requires acting { Acting c.now k.now state.old page.now x }
    requires statement_value { stmt_kind (decoded c.now) x.statement ≡ 4 }
    ensures { StatementLeaves c.now state.old page.now x result state.new page.now }
{
    let a = code::stmt_a(c, x.statement);
    match place_of(c, k, stack, state, page, x, a) {
        Err(f) => effects::fail(state, f),
        Ok(i) => {
            let block = code::type_p(c, code::type_of(c, a));
            create_next(state, page, x, i, block)
        }
    }
}
