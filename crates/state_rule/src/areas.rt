// The variables of a module in the area of a process, and those of its frames, of which a var parameter names a live one.
ghost use Rattle.std.specs.Prelude.{◌≡◌, ◌≤◌, ◌<◌};
ghost use Rattle.code.specs.Code.{decoded};
ghost use Rattle.machine.specs.Memory.{memory_of};
ghost use Rattle.machine.specs.Layout.{location};
ghost use Rattle.machine.specs.Rule.{owns, lives, modules_hold, frames_hold};
ghost use Rattle.values.specs.Heads.{ValueTest};
ghost use Rattle.state_rule.specs.Frames.{LiveSearch, RuleTest, variable_holds, lives_in_module, owned_in, frame_variable_ok};

use super::working::has_worked;
use code::kinds;
use values::beginning::{part_of_block, var_words};
use values::heads;
use values::holding::value_holds;
use values::lent::{area_word, record_word};

// Where word k from the beginning of the area of process p stands.
#[tactic(auto, unfolding(machine::specs::Layout::location))]
fn location_at(p: usize, k: usize) -> usize
    requires { (1 ≤ p) × ((p ≤ 64) × (k ≤ 14000000)) }
    ensures { (result ≡ location p k) × (result ≤ 15000000) }
{
    (p - 1) * 256 + k
}

// Variable v, which begins at word `at` of the area of process p, has a value of its type.
#[tactic(auto, using(crate::proofs::Frames::variables))]
fn variable_holds(
    c: &code::Slots,
    sizes: &[u16],
    heads: &[u16],
    state: &[u8],
    p: usize,
    v: usize,
    at: usize,
) -> bool
    requires value_test { ValueTest (decoded c.now) sizes.now heads.now state.now }
    requires le_p { (1 ≤ p) × ((p ≤ 64) × (at ≤ 14000000)) }
    ensures { result ≡ variable_holds (decoded c.now) (memory_of state.now) p v at }
{
    let x = code::var_type(c, v);
    heads::head_of(c, heads, x) == kinds::INTEGER
        || value_holds(c, sizes, heads, state, x, location_at(p, at))
}

// The variables of block b, at the beginning of the area of process p, have values of their types.
#[tactic(auto, using(crate::proofs::Frames::walking, crate::proofs::Frames::walked_near))]
pub fn modules_hold(
    c: &code::Slots,
    sizes: &[u16],
    heads: &[u16],
    state: &[u8],
    p: usize,
    b: usize,
) -> bool
    requires value_test { ValueTest (decoded c.now) sizes.now heads.now state.now }
    requires le_p { (1 ≤ p) × (p ≤ 64) }
    ensures { result ≡ modules_hold (decoded c.now) (memory_of state.now) p b }
{
    let first = code::first_var(c, b);
    let mut at = 0;
    for i in 0..code::block_vars(c, b) {
        if !variable_holds(c, sizes, heads, state, p, first + i, at) {
            return false;
        }
        at += var_words(c, sizes, first + i);
    }
    true
}

// At location a, in the area of a process that p worked on, stands one of its module's variables of type y, or such a part of one.
#[tactic(auto, using(crate::proofs::Frames::in_none, crate::proofs::Frames::in_some))]
fn lives_in_module(
    c: &code::Slots,
    sizes: &[u16],
    jumps: &[u16],
    state: &[u8],
    p: usize,
    d: usize,
    f: usize,
    w: usize,
    y: usize,
    a: usize,
) -> bool
    requires live_search { LiveSearch (decoded c.now) sizes.now jumps.now state.now }
    requires le_p { (1 ≤ p) × ((p ≤ 64) × ((f < 65536) × (a < 65536))) }
    ensures { result ≡ lives_in_module (decoded c.now) (memory_of state.now) p d f w y a }
{
    let r = a / 256 + 1;
    has_worked(state, p, d, f, w, r)
        && part_of_block(
            c,
            sizes,
            jumps,
            record_word(state, r, machine::MODULE),
            y,
            a % 256,
        )
}

// Word k of the area of process p lies in the frame at f, and a part of type y begins there.
#[tactic(auto, using(crate::proofs::Frames::owned_none, crate::proofs::Frames::owned_some))]
fn owned(
    c: &code::Slots,
    sizes: &[u16],
    jumps: &[u16],
    state: &[u8],
    p: usize,
    f: usize,
    y: usize,
    k: usize,
) -> bool
    requires live_search { LiveSearch (decoded c.now) sizes.now jumps.now state.now }
    requires le_p { (1 ≤ p) × ((p ≤ 64) × (f < 65536)) }
    ensures { result ≡ owned_in (decoded c.now) (memory_of state.now) p f y k }
{
    f + 4 <= k && part_of_block(c, sizes, jumps, area_word(state, p, f + 3), y, k - (f + 4))
}

// Word k lies in one of the d calls of process p, the innermost of which has its frame at f.
#[tactic(auto, using(crate::proofs::Frames::owning))]
fn owns_word(
    c: &code::Slots,
    sizes: &[u16],
    jumps: &[u16],
    state: &[u8],
    p: usize,
    d: usize,
    f: usize,
    y: usize,
    k: usize,
) -> bool
    requires live_search { LiveSearch (decoded c.now) sizes.now jumps.now state.now }
    requires le_p { (1 ≤ p) × ((p ≤ 64) × (f < 65536)) }
    ensures { result ≡ owns (decoded c.now) (memory_of state.now) p d f y k }
{
    let mut g = f;
    for _i in 0..d {
        if owned(c, sizes, jumps, state, p, g, y, k) {
            return true;
        }
        g = area_word(state, p, g);
    }
    false
}

// At location a stands a live variable of type y, or such a part of one.
#[tactic(auto, using(crate::proofs::Frames::lives_module, crate::proofs::Frames::lives_frame, crate::proofs::Frames::lives_none))]
fn lives_at(
    c: &code::Slots,
    sizes: &[u16],
    jumps: &[u16],
    state: &[u8],
    p: usize,
    d: usize,
    f: usize,
    w: usize,
    y: usize,
    a: usize,
) -> bool
    requires live_search { LiveSearch (decoded c.now) sizes.now jumps.now state.now }
    requires le_p { (1 ≤ p) × ((p ≤ 64) × ((f < 65536) × (a < 65536))) }
    ensures { result ≡ lives (decoded c.now) (memory_of state.now) p d f w y a }
{
    lives_in_module(c, sizes, jumps, state, p, d, f, w, y, a)
        || a / 256 + 1 == p && owns_word(c, sizes, jumps, state, p, d, f, y, a % 256)
}

// Variable v, which begins at word `at` of the variables of the frame at f: a var parameter names a live variable of its type.
#[tactic(auto, using(crate::proofs::Frames::frame_bound, crate::proofs::Frames::frame_value))]
fn frame_variable_holds(
    c: &code::Slots,
    sizes: &[u16],
    heads: &[u16],
    jumps: &[u16],
    state: &[u8],
    p: usize,
    d: usize,
    f: usize,
    v: usize,
    at: usize,
) -> bool
    requires rule_test { RuleTest (decoded c.now) sizes.now heads.now jumps.now state.now }
    requires le_p { (1 ≤ p) × ((p ≤ 64) × ((f < 65536) × (at ≤ 13900000))) }
    ensures { result ≡ frame_variable_ok (decoded c.now) (memory_of state.now) p d f v at }
{
    if code::var_mode(c, v) == kinds::VAR_PARAMETER {
        let a = area_word(state, p, f + 4 + at);
        lives_at(
            c,
            sizes,
            jumps,
            state,
            p,
            d,
            area_word(state, p, f),
            area_word(state, p, f + 2),
            code::var_type(c, v),
            a,
        )
    } else {
        variable_holds(c, sizes, heads, state, p, v, f + 4 + at)
    }
}

// The variables of a call of procedure q with its frame at f.
#[tactic(auto, using(crate::proofs::Frames::walking, crate::proofs::Frames::walked_small))]
pub fn frames_hold(
    c: &code::Slots,
    sizes: &[u16],
    heads: &[u16],
    jumps: &[u16],
    state: &[u8],
    p: usize,
    d: usize,
    f: usize,
    q: usize,
) -> bool
    requires rule_test { RuleTest (decoded c.now) sizes.now heads.now jumps.now state.now }
    requires le_p { (1 ≤ p) × ((p ≤ 64) × (f < 65536)) }
    ensures { result ≡ frames_hold (decoded c.now) (memory_of state.now) p d f q }
{
    let first = code::first_var(c, q);
    let mut at = 0;
    for i in 0..code::block_vars(c, q) {
        if !frame_variable_holds(c, sizes, heads, jumps, state, p, d, f, first + i, at) {
            return false;
        }
        at += var_words(c, sizes, first + i);
    }
    true
}
