// What C calls, by way of joyce_c: see include/joyce.h. Each call is thin over the crates below. Its contract gives result and slices by
// equations for every input; those of begin and run stand in specs/Calls.antt, where a log of calls cites them too.
#![tactic(auto)]

mod results;

ghost use Rattle.std.specs.Prelude.{◌≡◌};
ghost use Rattle.verdict.specs.Verdict.{verdict};
ghost use Rattle.machine.specs.Public.{look_call};
ghost use Rattle.symbols.specs.Answer.{symbols_answer, symbols_out};
ghost use Rattle.joyce.specs.Calls.{BeginLeaves, RunLeaves};

use results::number_of;

// The verdict on a table of the small edition, for every input: 0, or the lowest of the refusals 2 to 9 that applies.
#[unsafe(no_mangle)]
pub extern "C" fn joyce_check(table: &[u8]) -> u32
    ensures { result ≡ verdict 1 table.now }
{
    verdict::check(table)
}

// Makes the lent state that in which a run of the table with this number begins, or refuses and changes nothing.
#[unsafe(no_mangle)]
pub extern "C" fn joyce_begin(table: &[u8], state: &mut [u8], number: u32) -> u32
    ensures { BeginLeaves 1 table.now state.old number result state.new }
{
    number_of(states::begin(table, state, number))
}

// One step for each process of the schedule, in order, with its answer; or refuses and changes nothing.
#[unsafe(no_mangle)]
pub extern "C" fn joyce_run(
    table: &[u8],
    state: &mut [u8],
    page: &mut [u8],
    schedule: &[u8],
    answers: &mut [u8],
) -> u32
    ensures { RunLeaves 1 table.now state.old page.old schedule.now answers.old result state.new page.new answers.new }
{
    number_of(stepper::run(table, state, page, schedule, answers))
}

// The word that process, variable and place name, and 65,536; or a refusal.
#[unsafe(no_mangle)]
pub extern "C" fn joyce_look(
    table: &[u8],
    state: &[u8],
    process: u32,
    variable: u32,
    place: u32,
) -> u32
    ensures { result ≡ look_call verdict 1 table.now state.now process variable place }
{
    match stepper::look(table, state, process, variable, place) {
        Ok(word) => 65536 + u32::from(word),
        Err(refusal) => refusal.into(),
    }
}

// Splits a text into its symbols, seven bytes each, and gives their number and 65,536; or refuses and changes nothing.
#[unsafe(no_mangle)]
pub extern "C" fn joyce_symbols(text: &[u8], out: &mut [u8]) -> u32
    ensures answer { result ≡ symbols_answer text.now out.old }
    ensures slice { out.new ≡ symbols_out text.now out.old }
{
    symbols::symbols(text, out)
}
