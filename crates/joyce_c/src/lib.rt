// The archive that C links: the calls of joyce under their names in include/joyce.h, each with its clauses, since a library exports nothing to C.
#![tactic(auto)]

ghost use Rattle.std.specs.Prelude.{◌≡◌};
ghost use Rattle.verdict.specs.Verdict.{verdict};
ghost use Rattle.machine.specs.Public.{look_call};
ghost use Rattle.symbols.specs.Answer.{symbols_answer, symbols_out};
ghost use Rattle.joyce.specs.Calls.{BeginLeaves, RunLeaves};

#[unsafe(no_mangle)]
pub extern "C" fn joyce_check(table: &[u8]) -> u32
    ensures { result ≡ verdict 1 table.now }
{
    joyce::joyce_check(table)
}

#[unsafe(no_mangle)]
pub extern "C" fn joyce_begin(table: &[u8], state: &mut [u8], number: u32) -> u32
    ensures { BeginLeaves 1 table.now state.old number result state.new }
{
    joyce::joyce_begin(table, state, number)
}

#[unsafe(no_mangle)]
pub extern "C" fn joyce_run(
    table: &[u8],
    state: &mut [u8],
    page: &mut [u8],
    schedule: &[u8],
    answers: &mut [u8],
) -> u32
    ensures { RunLeaves 1 table.now state.old page.old schedule.now answers.old result state.new page.new answers.new }
{
    joyce::joyce_run(table, state, page, schedule, answers)
}

#[unsafe(no_mangle)]
pub extern "C" fn joyce_look(
    table: &[u8],
    state: &[u8],
    process: u32,
    variable: u32,
    place: u32,
) -> u32
    ensures { result ≡ look_call verdict 1 table.now state.now process variable place }
{
    joyce::joyce_look(table, state, process, variable, place)
}

#[unsafe(no_mangle)]
pub extern "C" fn joyce_symbols(text: &[u8], out: &mut [u8]) -> u32
    ensures answer { result ≡ symbols_answer text.now out.old }
    ensures slice { out.new ≡ symbols_out text.now out.old }
{
    joyce::joyce_symbols(text, out)
}
