// The state of a run: how it begins, and a look at a word of it (01, The four calls).
#![tactic(auto)]

ghost use Rattle.std.specs.Prelude.{◌≡◌, true, eqb, leb, ◌≤◌, ◌<◌, ◌+◌};
ghost use Rattle.basics.specs.Choice.{pick, both};
ghost use Rattle.table.specs.Entries.{block_count, block_kind};
ghost use Rattle.code.specs.Code.{decoded};
ghost use Rattle.sizes.specs.Kept.{Sizes};
ghost use Rattle.sizes.specs.Sizes.{module_words};
ghost use Rattle.verdict.specs.Verdict.{verdict};
ghost use Rattle.verdict.specs.Refusals.{verdict_number, look_number};
ghost use Rattle.verdict.specs.Accepted.{Accepted};
ghost use Rattle.machine.specs.Memory.{memory_of, bytes_of, zeros, fill};
ghost use Rattle.machine.specs.Lent.{State, Becomes};
ghost use Rattle.machine.specs.Layout.{location, module_at, created_at, locations, plain_words, mark_words, state_words, state_size};
ghost use Rattle.machine.specs.Calls.{standing};
ghost use Rattle.machine.specs.Variables.{offset_of, belongs};
ghost use Rattle.machine.specs.Run as runs;
ghost use Rattle.machine.specs.Rule.{rule};
ghost use Rattle.machine.specs.Public.{visible, word_there, look, begun, begin_call};
ghost use Rattle.states.specs.Parts.{first_made, started_or_ended, look_judged};

use verdict::Refusal;

// Makes every word 0.
fn clear_all(state: &mut [u8])
    requires { State state.old }
    ensures { Becomes state.new zeros }
{
    state.fill(0);
}

// Process 1 is started and holds its own variables; it is the one process created, in a run begun with this number.
#[tactic(auto, using(crate::proofs::Beginning::firsts))]
fn make_first(state: &mut [u8], number: u16)
    requires { State state.old }
    ensures { Becomes state.new (first_made (memory_of state.old) number) }
{
    machine::set_record_word(state, 1, machine::STATUS, machine::STARTED);
    machine::set_record_word(state, 1, machine::HOLDER, 1);
    machine::set_record_word(state, 1, machine::CREATED, 1);
    machine::set_record_word(state, 1, machine::NUMBER, number);
}

// Makes every word of marks w.
#[tactic(auto, using(crate::proofs::Beginning::filling))]
fn fill_marks(state: &mut [u8], w: u16)
    requires { State state.old }
    ensures { Becomes state.new (fill (memory_of state.old) plain_words mark_words w) }
{
    for k in 0..1024 {
        machine::set_word(state, marks::MARKS + k, w);
    }
}

// The words of marks at the start: all set under 1, none under 0.
fn first_marks(number: u16) -> u16
    ensures { result ≡ pick (eqb number 1) 65535 0 }
{
    if number == 1 { 65535 } else { 0 }
}

// Where process 1 stands, in no call: its statement and the first free word of its area.
fn stand_first(state: &mut [u8], statement: u16, top: u16)
    requires { State state.old }
    ensures { Becomes state.new (standing (memory_of state.old) 1 statement 0 top 1 0) }
{
    machine::set_record_word(state, 1, machine::STATEMENT, statement);
    machine::set_record_word(state, 1, machine::FRAME, 0);
    machine::set_record_word(state, 1, machine::TOP, top);
    machine::set_record_word(state, 1, machine::WORKS, 1);
    machine::set_record_word(state, 1, machine::DEPTH, 0);
}

// The words of the program's variables.
#[tactic(auto, using(crate::proofs::Beginning::types_small, crate::proofs::Beginning::program_words))]
fn program_words(c: &code::Slots, sizes: &[u16]) -> usize
    requires sizes { Sizes (decoded c.now) sizes.now }
    requires accepted { Accepted (decoded c.now) }
    ensures { (result ≡ module_words (decoded c.now) 0) × (result < 65536) }
{
    sizes::var_offset(c, sizes, 0, code::block_vars(c, 0))
}

// Makes the lent bytes the state in which a run with this number begins, whatever stood there.
pub fn begin_state(c: &code::Slots, sizes: &[u16], state: &mut [u8], number: u16)
    requires sizes { Sizes (decoded c.now) sizes.now }
    requires accepted { Accepted (decoded c.now) }
    requires state { State state.old }
    ensures { state.new ≡ bytes_of state_words (runs.begin (decoded c.now) number) }
{
    let statement = code::first_stmt(c, 0) as u16;
    let top = program_words(c, sizes) as u16;
    clear_all(state);
    make_first(state, number);
    stand_first(state, statement, top);
    fill_marks(state, first_marks(number));
}

// Process p is created, and is started or ended.
#[tactic(auto, using(basics::proofs::Tests::tests), unfolding(crate::specs::Parts::started_or_ended))]
fn is_shown(state: &[u8], p: usize) -> bool
    requires state { State state.now }
    requires created_at_bound { memory_of state.now created_at ≤ 64 }
    ensures { result ≡ started_or_ended (memory_of state.now) p }
{
    let created = usize::from(machine::record_word(state, 1, machine::CREATED));
    if !(1..=created).contains(&p) {
        return false;
    }
    matches!(
        machine::record_word(state, p, machine::STATUS),
        machine::STARTED..=machine::ENDED
    )
}

// v is a variable of block b; how many variables there are is a word.
#[tactic(auto, using(crate::proofs::Looking::belonging))]
fn belongs_to(c: &code::Slots, b: usize, v: usize) -> bool
    ensures { (result ≡ belongs (decoded c.now) b v) × (result ≡ true → v < 65536) }
{
    if v >= code::variables(c) {
        return false;
    }
    let first = code::first_var(c, b);
    first <= v && v < first + code::block_vars(c, b)
}

// Process p, variable v and place k name a word of a process's module variables.
#[tactic(auto, using(crate::proofs::Looking::seeing))]
fn is_visible(c: &code::Slots, sizes: &[u16], state: &[u8], p: usize, v: usize, k: usize) -> bool
    requires sizes { Sizes (decoded c.now) sizes.now }
    requires accepted { Accepted (decoded c.now) }
    requires state { State state.now }
    requires state_value { rule (decoded c.now) (memory_of state.now) ≡ true }
    ensures { (result ≡ visible (decoded c.now) (memory_of state.now) p v k) × (result ≡ true → v < 65536) }
{
    if !is_shown(state, p) {
        return false;
    }
    let b = usize::from(machine::record_word(state, p, machine::MODULE));
    belongs_to(c, b, v) && k < sizes::size_of(c, sizes, code::var_type(c, v))
}

// Where the variable v of the module or program b begins.
#[tactic(auto, using(crate::proofs::Beginning::types_small, crate::proofs::Looking::belongs_from, crate::proofs::Looking::offset_found))]
fn variable_offset(c: &code::Slots, sizes: &[u16], b: usize, v: usize) -> usize
    requires sizes { Sizes (decoded c.now) sizes.now }
    requires accepted { Accepted (decoded c.now) }
    requires b_bound { (b < block_count (decoded c.now)) × (block_kind (decoded c.now) b ≤ 1) }
    requires v_value { belongs (decoded c.now) b v ≡ true }
    requires v_bound { v < 65536 }
    ensures { result ≡ offset_of (decoded c.now) b v }
{
    let first = code::first_var(c, b);
    sizes::var_offset(c, sizes, b, v - first)
}

// Where the word stands that process p, variable v and place k name.
#[tactic(auto, using(crate::proofs::Looking::seen))]
fn visible_at(c: &code::Slots, sizes: &[u16], state: &[u8], p: usize, v: usize, k: usize) -> usize
    requires sizes { Sizes (decoded c.now) sizes.now }
    requires accepted { Accepted (decoded c.now) }
    requires state { State state.now }
    requires state_value { rule (decoded c.now) (memory_of state.now) ≡ true }
    requires k_value { visible (decoded c.now) (memory_of state.now) p v k ≡ true }
    requires v_bound { v < 65536 }
    ensures { (result ≡ location p (offset_of (decoded c.now) (memory_of state.now (module_at p)) v + k)) × (result < locations) }
{
    let b = usize::from(machine::record_word(state, p, machine::MODULE));
    let at = variable_offset(c, sizes, b, v);
    machine::location_of(p, at + k)
}

// The word at location a, refused where it is unmarked (02, g).
#[tactic(auto, using(crate::proofs::Looking::there_set, crate::proofs::Looking::there_unset))]
fn word_there(state: &[u8], a: usize) -> Result<u16, Refusal>
    requires state { State state.now }
    requires a_lt_locations { a < locations }
    ensures { look_number result ≡ word_there (memory_of state.now) a }
{
    if !marks::is_marked(state, a) {
        return Err(Refusal::Unset);
    }
    Ok(machine::word_of(state, a))
}

// The word that process, variable and place name, refused where it is unmarked, or they name none.
#[tactic(auto, using(crate::proofs::Looking::looking))]
pub fn look_word(
    c: &code::Slots,
    sizes: &[u16],
    state: &[u8],
    process: u32,
    variable: u32,
    place: u32,
) -> Result<u16, Refusal>
    requires sizes { Sizes (decoded c.now) sizes.now }
    requires accepted { Accepted (decoded c.now) }
    requires state { State state.now }
    requires state_value { rule (decoded c.now) (memory_of state.now) ≡ true }
    ensures { look_number result ≡ look (decoded c.now) (memory_of state.now) process variable place }
{
    let p = process as usize;
    let v = variable as usize;
    let k = place as usize;
    if !is_visible(c, sizes, state, p, v, k) {
        return Err(Refusal::Absent);
    }
    word_there(state, visible_at(c, sizes, state, p, v, k))
}

// The same of any state, where it is known whether it meets its rule; refused where it does not.
#[tactic(auto, using(crate::proofs::Looking::judged_rule, crate::proofs::Looking::judged_broken, crate::proofs::Looking::judged_look))]
pub fn look_judged(
    c: &code::Slots,
    sizes: &[u16],
    state: &[u8],
    ruled: bool,
    process: u32,
    variable: u32,
    place: u32,
) -> Result<u16, Refusal>
    requires sizes { Sizes (decoded c.now) sizes.now }
    requires accepted { Accepted (decoded c.now) }
    requires state { State state.now }
    requires ruled_value { ruled ≡ rule (decoded c.now) (memory_of state.now) }
    ensures { look_number result ≡ look_judged (decoded c.now) (memory_of state.now) process variable place }
{
    if !ruled {
        return Err(Refusal::State);
    }
    look_word(c, sizes, state, process, variable, place)
}

// The state has its length, and the number is 0 or 1 (02, g).
#[tactic(auto, using(basics::proofs::Tests::tests), unfolding(basics::specs::Choice::both))]
fn is_beginnable(state: usize, number: u32) -> bool
    ensures { result ≡ both (eqb state state_size) (leb number 1) }
{
    state == 37376 && number <= 1
}

// Makes the lent state that in which a run of the table with this number begins, or refuses and leaves it.
#[tactic(auto, using(crate::proofs::Beginning::begins))]
pub fn begin(table: &[u8], state: &mut [u8], number: u32) -> Result<(), Refusal>
    ensures { begun (verdict_number result) state.new ≡ begin_call verdict 1 table.now state.old number }
{
    if !is_beginnable(state.len(), number) {
        return Err(Refusal::Lengths);
    }
    let mut c = [0u16; 8264];
    let found = verdict::check_into(table, &mut c)?;
    begin_state(&c, &found.sizes, state, number as u16);
    Ok(())
}
