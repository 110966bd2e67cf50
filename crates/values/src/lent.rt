// The words of a lent state, which may be damaged.
ghost use Rattle.std.specs.Prelude.{◌≡◌, ◌≤◌, ◌<◌};
ghost use Rattle.table.specs.Reading.{Field};
ghost use Rattle.machine.specs.Memory.{memory_of};
ghost use Rattle.machine.specs.Layout.{location, record_at, created_at};
ghost use Rattle.machine.specs.Lent.{State};
ghost use Rattle.machine.specs.Processes.{refers};

// The statuses of created processes, as numbers.
pub const UNSTARTED: usize = machine::UNSTARTED as usize;

pub const STARTED: usize = machine::STARTED as usize;

pub const ENDED: usize = machine::ENDED as usize;

// Word i of the state, 0 beyond its end: a damaged state may name any word.
#[tactic(auto, using(crate::proofs::Reading::beyond))]
pub fn word_or_zero(state: &[u8], i: usize) -> usize
    requires { State state.now }
    ensures { Field (memory_of state.now i) result }
{
    if i < machine::STATE_WORDS {
        usize::from(machine::word_of(state, i))
    } else {
        0
    }
}

// Word k of the control record of process p.
#[tactic(auto, unfolding(machine::specs::Layout::record_at))]
pub fn record_word(state: &[u8], p: usize, k: usize) -> usize
    requires state { State state.now }
    requires le_p { (1 ≤ p) × ((p ≤ 65536) × (k < 20)) }
    ensures { Field (memory_of state.now (record_at p k)) result }
{
    word_or_zero(state, 16384 + (p - 1) * 20 + k)
}

// Word k from the beginning of the area of process p.
#[tactic(auto, unfolding(machine::specs::Layout::location))]
pub fn area_word(state: &[u8], p: usize, k: usize) -> usize
    requires state { State state.now }
    requires le_p { (1 ≤ p) × ((p ≤ 64) × (k ≤ 14000000)) }
    ensures { Field (memory_of state.now (location p k)) result }
{
    word_or_zero(state, (p - 1) * 256 + k)
}

// How many processes are created.
pub fn created(state: &[u8]) -> usize
    requires { State state.now }
    ensures { Field (memory_of state.now created_at) result }
{
    record_word(state, 1, machine::CREATED)
}

// r is the number of a created process of a module.
#[tactic(auto, using(crate::proofs::Reading::references))]
pub fn refers_to(state: &[u8], home: usize, r: usize) -> bool
    requires state { State state.now }
    requires r_bound { r < 65536 }
    ensures { result ≡ refers (memory_of state.now) home r }
{
    2 <= r && r <= created(state) && record_word(state, r, machine::MODULE) == home
}
