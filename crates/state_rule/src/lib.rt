// The test of the state rule (01, Verdicts and other refusals): the words of a lent state against an accepted table.
#![tactic(auto)]

pub mod working; // who works on what
pub mod areas; // the variables of areas and frames
pub mod chained; // calls

ghost use Rattle.std.specs.Prelude.{◌≡◌, ◌≤◌};
ghost use Rattle.code.specs.Code.{decoded};
ghost use Rattle.machine.specs.Memory.{memory_of};
ghost use Rattle.machine.specs.Layout.{created_at};
ghost use Rattle.machine.specs.Lent.{State};
ghost use Rattle.machine.specs.Rule.{module_ok, process_ok, failure_ok, run_ok, rule};
ghost use Rattle.state_rule.specs.Frames.{StateTest, RuleTest};
ghost use Rattle.state_rule.specs.Chains.{running_ok, processes_hold};
ghost use Rattle.values.specs.Walks.{SmallSizes};

use areas::modules_hold;
use chained::{chain_ok, is_module};
use code::kinds;
use values::lent::{created, record_word};
use values::{heads, jumps, lent};

// Process 1 is started and runs block 0; the others are created, of a process module.
#[tactic(auto, unfolding(machine::specs::Rule::module_ok, basics::specs::Choice::between, basics::specs::Choice::both))]
fn module_ok(c: &code::Slots, state: &[u8], p: usize) -> bool
    requires state { State state.now }
    requires le_p { (1 ≤ p) × (p ≤ 64) }
    ensures { result ≡ module_ok (decoded c.now) (memory_of state.now) p }
{
    let status = record_word(state, p, machine::STATUS);
    let b = record_word(state, p, machine::MODULE);
    if p == 1 {
        (lent::STARTED..=lent::ENDED).contains(&status) && b == 0
    } else {
        (lent::UNSTARTED..=lent::ENDED).contains(&status) && is_module(c, b)
    }
}

// A started process has calls, and stands at a statement.
#[tactic(auto, using(crate::proofs::Chains::processing))]
fn running_ok(
    c: &code::Slots,
    sizes: &[u16],
    heads: &[u16],
    jumps: &[u16],
    state: &[u8],
    p: usize,
) -> bool
    requires rule_test { RuleTest (decoded c.now) sizes.now heads.now jumps.now state.now }
    requires le_p { (1 ≤ p) × (p ≤ 64) }
    ensures { result ≡ running_ok (decoded c.now) (memory_of state.now) p }
{
    record_word(state, p, machine::STATUS) != lent::STARTED
        || chain_ok(c, sizes, heads, jumps, state, p)
}

#[tactic(auto, using(crate::proofs::Chains::processing))]
fn process_ok(
    c: &code::Slots,
    sizes: &[u16],
    heads: &[u16],
    jumps: &[u16],
    state: &[u8],
    p: usize,
) -> bool
    requires rule_test { RuleTest (decoded c.now) sizes.now heads.now jumps.now state.now }
    requires le_p { (1 ≤ p) × (p ≤ 64) }
    ensures { result ≡ process_ok (decoded c.now) (memory_of state.now) p }
{
    module_ok(c, state, p)
        && record_word(state, p, machine::HOLDER) <= created(state)
        && modules_hold(
            c,
            sizes,
            heads,
            state,
            p,
            record_word(state, p, machine::MODULE),
        )
        && running_ok(c, sizes, heads, jumps, state, p)
}

#[tactic(auto, using(crate::proofs::Chains::failure_none, crate::proofs::Chains::failure_some))]
fn failure_ok(state: &[u8]) -> bool
    requires { State state.now }
    ensures { result ≡ failure_ok (memory_of state.now) }
{
    let n = record_word(state, 1, machine::FAILURE);
    n == 0 || machine::is_failure(n)
}

#[tactic(auto, using(crate::proofs::Chains::run_failed, crate::proofs::Chains::run_number))]
fn run_ok(state: &[u8]) -> bool
    requires { State state.now }
    ensures { result ≡ run_ok (memory_of state.now) }
{
    failure_ok(state) && record_word(state, 1, machine::NUMBER) <= 1
}

// Each created process.
fn processes_hold(
    c: &code::Slots,
    sizes: &[u16],
    heads: &[u16],
    jumps: &[u16],
    state: &[u8],
) -> bool
    requires rule_test { RuleTest (decoded c.now) sizes.now heads.now jumps.now state.now }
    requires created_at_bound { memory_of state.now created_at ≤ 64 }
    ensures { result ≡ processes_hold (decoded c.now) (memory_of state.now) }
{
    (0..created(state)).all(|i| process_ok(c, sizes, heads, jumps, state, i + 1))
}

// The same, where nothing is found of the types yet. The table has few: the chains are short.
fn few_hold(c: &code::Slots, sizes: &[u16], state: &[u8], n: usize) -> bool
    requires state_test { StateTest (decoded c.now) sizes.now state.now }
    requires created_at_bound { (memory_of state.now created_at ≤ 64) × ((3 ≤ n) × (n ≤ 16)) }
    ensures { result ≡ processes_hold (decoded c.now) (memory_of state.now) }
{
    let mut heads = [0u16; 16];
    heads::find_heads(c, &mut heads[..], n);
    let jumps = [0u16; 1];
    processes_hold(c, sizes, &heads[..n], &jumps[..0], state)
}

// The same. It has many, and heads and jumps are found for those below n.
fn many_hold(c: &code::Slots, sizes: &[u16], state: &[u8], n: usize) -> bool
    requires state_test { StateTest (decoded c.now) sizes.now state.now }
    requires created_at_bound { (memory_of state.now created_at ≤ 64) × ((3 ≤ n) × (n ≤ 258)) }
    ensures { result ≡ processes_hold (decoded c.now) (memory_of state.now) }
{
    let mut heads = [0u16; 258];
    heads::find_heads(c, &mut heads[..], n);
    let mut jumps = [0u16; 258];
    jumps::find_jumps(c, &mut jumps[..], n);
    processes_hold(c, sizes, &heads[..n], &jumps[..n], state)
}

// The words in use, as the control records have it.
fn words_in_use(state: &[u8]) -> usize
    requires state { State state.now }
    requires created_at_bound { memory_of state.now created_at ≤ 64 }
{
    let mut sum = 0;
    for p in 1..=created(state) {
        sum += record_word(state, p, machine::TOP);
    }
    sum
}

// How many types are worth it: all; only the standard ones where fewer words are in use than there are types.
fn worth_finding(state: &[u8], n: usize) -> usize
    requires state { State state.now }
    requires created_at_bound { (memory_of state.now created_at ≤ 64) × ((3 ≤ n) × (n ≤ 258)) }
    ensures { (3 ≤ result) × (result ≤ 258) }
{
    if n <= words_in_use(state) {
        n
    } else {
        kinds::STANDARD
    }
}

// The same, by either way.
fn all_hold(c: &code::Slots, sizes: &[u16], state: &[u8]) -> bool
    requires state_test { StateTest (decoded c.now) sizes.now state.now }
    requires created_at_bound { memory_of state.now created_at ≤ 64 }
    ensures { result ≡ processes_hold (decoded c.now) (memory_of state.now) }
{
    let n = heads::known_types(c);
    if n <= 16 {
        few_hold(c, sizes, state, n)
    } else {
        many_hold(c, sizes, state, worth_finding(state, n))
    }
}

// THE STATE RULE: the lent state is one that a run of the table can be in, as far as its words show.
#[tactic(auto, using(crate::proofs::Chains::ruling, crate::proofs::Chains::few))]
pub fn rule_holds(c: &code::Slots, sizes: &[u16], state: &[u8]) -> bool
    requires small_sizes { SmallSizes (decoded c.now) sizes.now }
    requires state { State state.now }
    ensures { result ≡ rule (decoded c.now) (memory_of state.now) }
{
    (1..=64).contains(&created(state)) && run_ok(state) && all_hold(c, sizes, state)
}
