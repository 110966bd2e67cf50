// Values: the words at a location hold one of a type, tested by the head of the type.
ghost use Rattle.std.specs.Prelude.{◌≡◌, ◌≤◌, leb};
ghost use Rattle.basics.specs.Choice.{all_below};
ghost use Rattle.code.specs.Code.{decoded};
ghost use Rattle.sizes.specs.Sizes.{words_of};
ghost use Rattle.machine.specs.Memory.{memory_of};
ghost use Rattle.machine.specs.Lent.{State};
ghost use Rattle.machine.specs.Values.{holds};
ghost use Rattle.values.specs.Heads.{Tested, ValueTest, words_hold, word_up_to, word_refers};
ghost use Rattle.values.specs.Walks.{SmallSizes, Near, WordCount, reference_holds, fields_hold, elements_hold, RecordAt, ArrayAt};

use super::heads;
use super::lent::{refers_to, word_or_zero};
use code::kinds;

// The words of type x.
#[tactic(auto, using(crate::proofs::Reading::exact))]
pub fn words_of(c: &code::Slots, sizes: &[u16], x: usize) -> usize
    requires { SmallSizes (decoded c.now) sizes.now }
    ensures { WordCount (words_of (decoded c.now) x) result }
{
    sizes::size_of(c, sizes, x)
}

// The word at location a is at most `most`.
fn word_up_to(state: &[u8], a: usize, most: usize) -> bool
    requires { State state.now }
    ensures { result ≡ leb (memory_of state.now a) most }
{
    word_or_zero(state, a) <= most
}

// Each of the n words from location a on is.
fn words_up_to(state: &[u8], a: usize, n: usize, most: usize) -> bool
    requires state { State state.now }
    requires a_bound { (a ≤ 20000000) × (n ≤ 200) }
    ensures { result ≡ all_below n (word_up_to (memory_of state.now) most a) }
{
    (0..n).all(|i| word_up_to(state, a + i, most))
}

// A process variable at location a is empty, or names a created process of its module.
#[tactic(auto, using(crate::proofs::Reading::reference_none, crate::proofs::Reading::reference_some))]
fn reference_holds(state: &[u8], home: usize, a: usize) -> bool
    requires { State state.now }
    ensures { result ≡ reference_holds (memory_of state.now) home a }
{
    let r = word_or_zero(state, a);
    r == 0 || refers_to(state, home, r)
}

// So does each of the n words from location a on.
fn references_hold(state: &[u8], home: usize, a: usize, n: usize) -> bool
    requires state { State state.now }
    requires a_bound { (a ≤ 20000000) × (n ≤ 200) }
    ensures { result ≡ all_below n (word_refers (memory_of state.now) home a) }
{
    (0..n).all(|i| reference_holds(state, home, a + i))
}

// A value of the simple or process type h, integers apart, stands at each of the n words from location a on.
#[tactic(auto, using(crate::proofs::Heading::sorts))]
fn words_hold(c: &code::Slots, state: &[u8], h: usize, a: usize, n: usize) -> bool
    requires state { State state.now }
    requires tested { Tested (decoded c.now) h }
    requires a_bound { (a ≤ 20000000) × (n ≤ 200) }
    ensures { result ≡ words_hold (decoded c.now) (memory_of state.now) h a n }
{
    match h {
        kinds::BOOLEAN => words_up_to(state, a, n, 1),
        kinds::CHARACTER => words_up_to(state, a, n, 127),
        _ if code::type_kind(c, h) == kinds::PROCESS => {
            references_hold(state, code::type_p(c, h), a, n)
        }
        _ => n == 0,
    }
}

// A value of type x stands at location a.
#[tactic(auto, using(crate::proofs::Heading::values, crate::proofs::Heading::tested))]
#[cycle(hold)]
pub fn value_holds(
    c: &code::Slots,
    sizes: &[u16],
    heads: &[u16],
    state: &[u8],
    x: usize,
    a: usize,
) -> bool
    requires value_test { ValueTest (decoded c.now) sizes.now heads.now state.now }
    requires near { Near (decoded c.now) x a }
    ensures { result ≡ holds (decoded c.now) (memory_of state.now) x a }
{
    let h = heads::head_of(c, heads, x);
    if h == kinds::INTEGER {
        return true;
    }
    match code::type_kind(c, h) {
        kinds::RECORD => fields_hold(c, sizes, heads, state, h, a),
        kinds::ARRAY => elements_hold(c, sizes, heads, state, h, a),
        _ => words_hold(c, state, h, a, words_of(c, sizes, x)),
    }
}

#[tactic(auto, using(crate::proofs::Values::fieldwalks, crate::proofs::Values::walk_fits))]
#[cycle(hold)]
fn fields_hold(
    c: &code::Slots,
    sizes: &[u16],
    heads: &[u16],
    state: &[u8],
    x: usize,
    a: usize,
) -> bool
    requires value_test { ValueTest (decoded c.now) sizes.now heads.now state.now }
    requires record_at { RecordAt (decoded c.now) (memory_of state.now) x a }
    ensures { result ≡ fields_hold (decoded c.now) (memory_of state.now) x a }
{
    let first = code::type_p(c, x);
    let mut at = a;
    for i in 0..code::type_q(c, x) {
        let f = code::field_type(c, first + i);
        if x <= f || !value_holds(c, sizes, heads, state, f, at) {
            return false;
        }
        at += words_of(c, sizes, f);
    }
    true
}

#[tactic(auto, using(crate::proofs::Values::elementwalks, crate::proofs::Values::walk_fits))]
#[cycle(hold)]
fn elements_hold(
    c: &code::Slots,
    sizes: &[u16],
    heads: &[u16],
    state: &[u8],
    x: usize,
    a: usize,
) -> bool
    requires value_test { ValueTest (decoded c.now) sizes.now heads.now state.now }
    requires array_at { ArrayAt (decoded c.now) (memory_of state.now) x a }
    ensures { result ≡ elements_hold (decoded c.now) (memory_of state.now) x a }
{
    let q = code::type_q(c, x);
    let words = words_of(c, sizes, q);
    let mut at = a;
    for i in 0..types::elements_of(c, x) {
        if x <= q || !value_holds(c, sizes, heads, state, q, at) {
            return false;
        }
        at += words;
    }
    true
}
