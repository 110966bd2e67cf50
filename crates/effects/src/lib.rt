// What every statement ends with: the process goes on, waits, or the run fails (01, Step answers).
#![tactic(auto)]

ghost use Rattle.std.specs.Prelude.{◌≡◌, true, ◌+◌, ◌-◌, ◌≤◌, ◌<◌};
ghost use Rattle.words.specs.Values.{failure_number};
ghost use Rattle.machine.specs.Memory.{memory_of, update};
ghost use Rattle.machine.specs.Layout.{statement_at, failure_at};
ghost use Rattle.machine.specs.Lent.{State, Becomes};
ghost use Rattle.machine.specs.Outcomes.{is_failure};

use operands::Context;
use operands::packed::FAILURES;
use words::values::Failure;

// The run fails: only the failure mark changes.
#[tactic(auto, using(crate::proofs::Carrying::marked))]
pub fn fail(state: &mut [u8], f: Failure) -> u8
    requires { State state.old }
    ensures { (result ≡ failure_number f) × Becomes state.new (update (memory_of state.old) failure_at (failure_number f)) }
{
    let n = u8::from(f);
    frames::mark_failure(state, u16::from(n));
    n
}

// The run fails, by an answer that is a failure (operands, packed).
#[tactic(auto, using(crate::proofs::Carrying::marked, crate::proofs::Carrying::failure_fits))]
pub fn fail_by(state: &mut [u8], r: u32) -> u8
    requires state { State state.old }
    requires le_r { (65536 ≤ r) × (is_failure (r - 65536) ≡ true) }
    ensures { (result ≡ r - 65536) × Becomes state.new (update (memory_of state.old) failure_at (r - 65536)) }
{
    let n = (r - FAILURES) as u8;
    frames::mark_failure(state, u16::from(n));
    n
}

// The process goes on with the statement after this one.
pub fn go_on(state: &mut [u8], x: Context)
    requires state { State state.old }
    requires le_process { (1 ≤ x.process) × ((x.process ≤ 64) × (x.statement < 65535)) }
    ensures { Becomes state.new (update (memory_of state.old) (statement_at x.process) (x.statement + 1)) }
{
    frames::go_to(state, x.process, (x.statement + 1) as u16);
}
