// Access to a lent state by word: areas, control records and frames (01, The four calls; docs/STATE.md).
#![tactic(auto)]

ghost use Rattle.std.specs.Prelude.{◌≡◌, ◌*◌, ◌≤◌, ◌<◌};
ghost use Rattle.machine.specs.Memory.{memory_of, update};
ghost use Rattle.machine.specs.Outcomes.{is_failure};
ghost use Rattle.machine.specs.Layout.{location, record_at, state_words, locations};
ghost use Rattle.machine.specs.Lent.{State, Becomes};

// The words of a state: 64 areas of 256 words, 64 control records of 20, a mark for each word of the areas (02, g).
pub const STATE_WORDS: usize = 18688;

// The words of a process's area.
pub const AREA: usize = 256;

// The most processes of a run.
pub const PROCESSES: u16 = 64;

// The words of a control record, as Layout has them.
pub const STATUS: usize = 0;

pub const MODULE: usize = 1;

pub const STATEMENT: usize = 2;

pub const FRAME: usize = 3;

pub const TOP: usize = 4;

pub const WORKS: usize = 5;

pub const HOLDER: usize = 6;

pub const DEPTH: usize = 7;
// In that of process 1: how many processes are created, and the run's failure mark.
pub const CREATED: usize = 8;

pub const FAILURE: usize = 9;
// And the number that the run was begun with.
pub const NUMBER: usize = 10;

// The statuses of a created process: numbers, since they are words of a lent state.
pub const UNSTARTED: u16 = 1;

pub const STARTED: u16 = 2;

pub const ENDED: u16 = 3;

// n is the number of a failure (01, Step answers).
#[tactic(auto, unfolding(crate::specs::Outcomes::is_failure, basics::specs::Choice::either, basics::specs::Choice::both, basics::specs::Choice::between))]
pub fn is_failure(n: usize) -> bool
    ensures { result ≡ is_failure n }
{
    matches!(n, 16..=24 | 31)
}

// Where word k of the area of process p stands.
#[tactic(auto, unfolding(crate::specs::Layout::location))]
pub fn location_of(p: usize, k: usize) -> usize
    requires { (1 ≤ p) × ((p ≤ 64) × (k ≤ 255)) }
    ensures { (result ≡ location p k) × (result < locations) }
{
    (p - 1) * AREA + k
}

// Where word k of the control record of process p stands.
#[tactic(auto, unfolding(crate::specs::Layout::record_at))]
pub fn record_of(p: usize, k: usize) -> usize
    requires { (1 ≤ p) × ((p ≤ 64) × (k < 20)) }
    ensures { (result ≡ record_at p k) × (result < state_words) }
{
    16384 + (p - 1) * 20 + k
}

// Word i of a state.
#[tactic(auto, using(crate::proofs::Memories::memory_word))]
pub fn word_of(state: &[u8], i: usize) -> u16
    requires state { State state.now }
    requires i_lt_state_words { i < state_words }
    ensures { result ≡ memory_of state.now i }
{
    words::memory::get(state, i)
}

// Makes it v.
#[tactic(auto, using(crate::proofs::Lending::puts))]
pub fn set_word(state: &mut [u8], i: usize, v: u16)
    requires state { State state.old }
    requires i_lt_state_words { i < state_words }
    ensures { Becomes state.new (update (memory_of state.old) i v) }
{
    words::memory::put(state, i, v);
}

// Word k of the area of process p.
pub fn area_word(state: &[u8], p: usize, k: usize) -> u16
    requires state { State state.now }
    requires le_p { (1 ≤ p) × ((p ≤ 64) × (k ≤ 255)) }
    ensures { result ≡ memory_of state.now (location p k) }
{
    word_of(state, location_of(p, k))
}

pub fn set_area_word(state: &mut [u8], p: usize, k: usize, v: u16)
    requires state { State state.old }
    requires le_p { (1 ≤ p) × ((p ≤ 64) × (k ≤ 255)) }
    ensures { Becomes state.new (update (memory_of state.old) (location p k) v) }
{
    set_word(state, location_of(p, k), v);
}

// Word k of the control record of process p.
pub fn record_word(state: &[u8], p: usize, k: usize) -> u16
    requires state { State state.now }
    requires le_p { (1 ≤ p) × ((p ≤ 64) × (k < 20)) }
    ensures { result ≡ memory_of state.now (record_at p k) }
{
    word_of(state, record_of(p, k))
}

pub fn set_record_word(state: &mut [u8], p: usize, k: usize, v: u16)
    requires state { State state.old }
    requires le_p { (1 ≤ p) × ((p ≤ 64) × (k < 20)) }
    ensures { Becomes state.new (update (memory_of state.old) (record_at p k) v) }
{
    set_word(state, record_of(p, k), v);
}
