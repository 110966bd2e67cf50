// Who works on what: what a process worked on when it made its calls, what it holds of that, and what its call statements say.
ghost use Rattle.std.specs.Prelude.{◌≡◌, ◌≤◌, ◌<◌};
ghost use Rattle.code.specs.Code.{decoded};
ghost use Rattle.machine.specs.Memory.{memory_of};
ghost use Rattle.machine.specs.Lent.{State};
ghost use Rattle.machine.specs.Entries.{stmt_at};
ghost use Rattle.machine.specs.Rule.{may_wait, worked, holds_on};
ghost use Rattle.state_rule.specs.Chains.{call_made};

use code::kinds;
use values::lent::{area_word, record_word};

// Process r is w, or one that process p worked on when it made one of its d calls, the innermost of which has its frame at f.
#[tactic(auto, using(crate::proofs::Frames::working))]
pub fn has_worked(state: &[u8], p: usize, d: usize, f: usize, w: usize, r: usize) -> bool
    requires state { State state.now }
    requires le_p { (1 ≤ p) × ((p ≤ 64) × (f < 65536)) }
    ensures { result ≡ worked (memory_of state.now) p d f w r }
{
    let mut g = f;
    let mut v = w;
    for _i in 0..d {
        if v == r {
            return true;
        }
        v = area_word(state, p, g + 2);
        g = area_word(state, p, g);
    }
    v == r
}

// Statement i is a when (kind 8) or a cycle (kind 9).
#[tactic(auto, using(crate::proofs::Chains::waiting))]
fn may_wait(c: &code::Slots, i: usize) -> bool
    ensures { result ≡ may_wait (stmt_at (decoded c.now) i) }
{
    i < code::statements(c) && matches!(code::stmt_kind(c, i), kinds::WHEN | kinds::CYCLE)
}

// Process p holds the variables of process w, or stands at a when or cycle where it works on w.
#[tactic(auto, using(crate::proofs::Chains::holding))]
pub fn holds_on(c: &code::Slots, state: &[u8], p: usize, w: usize) -> bool
    requires state { State state.now }
    requires le_p { (1 ≤ p) × ((p ≤ 64) × ((1 ≤ w) × (w < 65536))) }
    ensures { result ≡ holds_on (decoded c.now) (memory_of state.now) p w }
{
    record_word(state, w, machine::HOLDER) == p
        || w == record_word(state, p, machine::WORKS)
            && may_wait(c, record_word(state, p, machine::STATEMENT))
}

// Statement i calls procedure q, with its frame at f and d calls below it, and makes process p work on w: a local call (kind 2) on what it
// worked on before, one of another process (kind 3) on none of those outside.
#[tactic(auto, using(crate::proofs::Chains::making))]
pub fn call_made(
    c: &code::Slots,
    state: &[u8],
    p: usize,
    d: usize,
    f: usize,
    w: usize,
    q: usize,
    i: usize,
) -> bool
    requires state { State state.now }
    requires le_p { (1 ≤ p) × ((p ≤ 64) × (f < 65536)) }
    ensures { result ≡ call_made (decoded c.now) (memory_of state.now) p d f w q i }
{
    if code::statements(c) <= i {
        return false;
    }
    let v = area_word(state, p, f + 2);
    match code::stmt_kind(c, i) {
        kinds::LOCAL_CALL => code::stmt_a(c, i) == q && v == w,
        kinds::PROCESS_CALL => {
            code::stmt_b(c, i) == q && !has_worked(state, p, d, area_word(state, p, f), v, w)
        }
        _ => false,
    }
}
