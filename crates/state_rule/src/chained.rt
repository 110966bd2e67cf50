// The calls of a process that have not ended: each frame fits its procedure, and the next begins where it says.
ghost use Rattle.std.specs.Prelude.{◌≡◌, ◌≤◌, ◌<◌, eqb};
ghost use Rattle.basics.specs.Choice.{both};
ghost use Rattle.table.specs.Entries.{stmt_limit};
ghost use Rattle.code.specs.Code.{decoded};
ghost use Rattle.sizes.specs.Sizes.{module_words};
ghost use Rattle.machine.specs.Memory.{memory_of};
ghost use Rattle.machine.specs.Lent.{State};
ghost use Rattle.machine.specs.Variables.{frame_words, is_module, is_procedure};
ghost use Rattle.machine.specs.Rule.{lies_in, frame_ok, started_ok};
ghost use Rattle.state_rule.specs.Frames.{StateTest, RuleTest};
ghost use Rattle.state_rule.specs.Chains.{Sum, started_of, frame_fits, called_ok, call_ok, base_ok};
ghost use Rattle.values.specs.Walks.{SmallSizes};

use super::areas::frames_hold;
use super::working::{call_made, holds_on};
use code::kinds;
use values::beginning::var_words;
use values::holding::words_of;
use values::lent;
use values::lent::{area_word, created, record_word};

// Where the statements of block b end: at the first of the next block, or at the end of all.
#[tactic(auto, using(crate::proofs::Chains::next_more, crate::proofs::Chains::next_last))]
fn next_first(c: &code::Slots, b: usize) -> usize
    requires { b < 65536 }
    ensures { result ≡ stmt_limit (decoded c.now) b }
{
    if b + 1 < code::blocks(c) {
        code::first_stmt(c, b + 1)
    } else {
        code::statements(c)
    }
}

// Statement i is one of block b's.
#[tactic(auto, using(crate::proofs::Chains::lies_before, crate::proofs::Chains::lies_after))]
fn lies_in(c: &code::Slots, b: usize, i: usize) -> bool
    requires { b < 65536 }
    ensures { result ≡ lies_in (decoded c.now) b i }
{
    code::first_stmt(c, b) <= i && i < next_first(c, b)
}

#[tactic(auto, unfolding(machine::specs::Variables::is_procedure, basics::specs::Choice::both))]
fn is_procedure(c: &code::Slots, b: usize) -> bool
    ensures { result ≡ is_procedure (decoded c.now) b }
{
    b < code::blocks(c) && code::block_kind(c, b) == kinds::PROCEDURE
}

#[tactic(auto, unfolding(machine::specs::Variables::is_module, basics::specs::Choice::both))]
pub fn is_module(c: &code::Slots, b: usize) -> bool
    ensures { result ≡ is_module (decoded c.now) b }
{
    b < code::blocks(c) && code::block_kind(c, b) == kinds::MODULE
}

// The words of a procedure's variables in its frame.
#[tactic(auto, using(crate::proofs::Chains::sums, crate::proofs::Chains::summed_fits))]
fn frame_words(c: &code::Slots, sizes: &[u16], q: usize) -> usize
    requires { SmallSizes (decoded c.now) sizes.now }
    ensures { Sum (frame_words (decoded c.now) q) result }
{
    let first = code::first_var(c, q);
    let mut sum = 0;
    for i in 0..code::block_vars(c, q) {
        sum += var_words(c, sizes, first + i);
    }
    sum
}

// The words of the variables of a module or of block 0.
#[tactic(auto, using(crate::proofs::Chains::sums, crate::proofs::Chains::summed_fits))]
fn module_words(c: &code::Slots, sizes: &[u16], b: usize) -> usize
    requires { SmallSizes (decoded c.now) sizes.now }
    ensures { Sum (module_words (decoded c.now) b) result }
{
    let first = code::first_var(c, b);
    let mut sum = 0;
    for i in 0..code::block_vars(c, b) {
        sum += words_of(c, sizes, code::var_type(c, first + i));
    }
    sum
}

// w is a process of block b that has been started.
#[tactic(auto, using(crate::proofs::Chains::members))]
fn is_of(state: &[u8], b: usize, w: usize) -> bool
    requires { State state.now }
    ensures { result ≡ started_of (memory_of state.now) b w }
{
    1 <= w
        && w <= created(state)
        && record_word(state, w, machine::STATUS) != lent::UNSTARTED
        && b == record_word(state, w, machine::MODULE)
}

// q is a procedure of the block of the process w, which has been started.
#[tactic(auto, using(crate::proofs::Chains::called_none, crate::proofs::Chains::called_some))]
fn called_ok(c: &code::Slots, state: &[u8], w: usize, q: usize) -> bool
    requires { State state.now }
    ensures { result ≡ called_ok (decoded c.now) (memory_of state.now) w q }
{
    is_procedure(c, q) && is_of(state, code::block_owner(c, q), w)
}

// The frame of procedure q at f ends at the top, within the area. The words are added up only where the frame can fit.
#[tactic(auto, using(crate::proofs::Chains::framing))]
fn frame_fits(c: &code::Slots, sizes: &[u16], f: usize, top: usize, q: usize) -> bool
    requires small_sizes { SmallSizes (decoded c.now) sizes.now }
    requires f_bound { f < 65536 }
    ensures { result ≡ frame_fits (decoded c.now) f top q }
{
    f + 4 <= 256 && top <= 256 && f + 4 + frame_words(c, sizes, q) == top
}

// A call of procedure q, with its frame at f, that stands at statement i and works on process w; its frame ends at the top.
#[tactic(auto, using(crate::proofs::Chains::framing))]
fn frame_ok(
    c: &code::Slots,
    sizes: &[u16],
    state: &[u8],
    f: usize,
    w: usize,
    i: usize,
    top: usize,
    q: usize,
) -> bool
    requires state_test { StateTest (decoded c.now) sizes.now state.now }
    requires f_bound { (f < 65536) × (q < 65536) }
    ensures { result ≡ frame_ok (decoded c.now) (memory_of state.now) f w i top q }
{
    called_ok(c, state, w, q) && lies_in(c, q, i) && frame_fits(c, sizes, f, top, q)
}

// The call with its frame at f, d calls below it: its frame, the holder of what it works on, the statement that called, and its variables,
// which take longest.
#[tactic(auto, using(crate::proofs::Chains::onecall, crate::proofs::Chains::call_works))]
fn call_ok(
    c: &code::Slots,
    sizes: &[u16],
    heads: &[u16],
    jumps: &[u16],
    state: &[u8],
    p: usize,
    d: usize,
    f: usize,
    w: usize,
    i: usize,
    top: usize,
) -> bool
    requires rule_test { RuleTest (decoded c.now) sizes.now heads.now jumps.now state.now }
    requires le_p { (1 ≤ p) × ((p ≤ 64) × ((f < 65536) × (w < 65536))) }
    ensures { result ≡ call_ok (decoded c.now) (memory_of state.now) p d f w i top }
{
    let q = area_word(state, p, f + 3);
    frame_ok(c, sizes, state, f, w, i, top, q)
        && holds_on(c, state, p, w)
        && call_made(c, state, p, d, f, w, q, area_word(state, p, f + 1))
        && frames_hold(c, sizes, heads, jumps, state, p, d, f, q)
}

// Below its calls process p stands at statement i of its own block, and works on itself; it holds its variables, but where it waits.
#[tactic(auto, using(crate::proofs::Chains::below))]
fn base_ok(
    c: &code::Slots,
    sizes: &[u16],
    state: &[u8],
    p: usize,
    f: usize,
    w: usize,
    i: usize,
    top: usize,
) -> bool
    requires state_test { StateTest (decoded c.now) sizes.now state.now }
    requires le_p { (1 ≤ p) × (p ≤ 64) }
    ensures { result ≡ base_ok (decoded c.now) (memory_of state.now) p f w i top }
{
    let b = record_word(state, p, machine::MODULE);
    stands_alone(p, f, w)
        && holds_on(c, state, p, p)
        && lies_in(c, b, i)
        && top == module_words(c, sizes, b)
}

#[tactic(auto, unfolding(basics::specs::Choice::both))]
fn stands_alone(p: usize, f: usize, w: usize) -> bool
    ensures { result ≡ both (eqb f 0) (eqb w p) }
{
    f == 0 && w == p
}

// The calls of process p that have not ended, the innermost first. A frame has at least 4 of the 256 words: there are no more than 64.
#[tactic(auto, using(crate::proofs::Chains::left_deep, crate::proofs::Chains::left_fails, crate::proofs::Chains::left_base, crate::proofs::Chains::left_begin))]
pub fn chain_ok(
    c: &code::Slots,
    sizes: &[u16],
    heads: &[u16],
    jumps: &[u16],
    state: &[u8],
    p: usize,
) -> bool
    requires rule_test { RuleTest (decoded c.now) sizes.now heads.now jumps.now state.now }
    requires le_p { (1 ≤ p) × (p ≤ 64) }
    ensures { result ≡ started_ok (decoded c.now) (memory_of state.now) p }
{
    let depth = record_word(state, p, machine::DEPTH);
    let mut f = record_word(state, p, machine::FRAME);
    let mut w = record_word(state, p, machine::WORKS);
    let mut i = record_word(state, p, machine::STATEMENT);
    let mut top = record_word(state, p, machine::TOP);
    if 64 < depth {
        return false;
    }
    for n in (0..depth).rev() {
        if !call_ok(c, sizes, heads, jumps, state, p, n, f, w, i, top) {
            return false;
        }
        top = f;
        i = area_word(state, p, f + 1);
        w = area_word(state, p, f + 2);
        f = area_word(state, p, f);
    }
    base_ok(c, sizes, state, p, f, w, i, top)
}
