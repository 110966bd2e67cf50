// Parts of variables: a part of a type begins at a word of a variable, or of the variables of a block.
ghost use Rattle.std.specs.Prelude.{◌≡◌, ◌/◌, ◌%◌, ◌≤◌, eqb};
ghost use Rattle.basics.specs.Choice.{both};
ghost use Rattle.code.specs.Code.{decoded};
ghost use Rattle.sizes.specs.Sizes.{part_words};
ghost use Rattle.machine.specs.Variables.{var_words};
ghost use Rattle.machine.specs.Values.{part, part_of_block};
ghost use Rattle.values.specs.Jumps.{LeadsAtWord, PartSearch};
ghost use Rattle.values.specs.Walks.{SmallSizes, WordCount, field_begins, fields_begin, element_begins, variable_begins};

use super::holding::words_of;
use super::jumps;
use code::kinds;

// k / w and k % w, also for no words (as the numbers of the definition have it).
fn quotient(k: usize, w: usize) -> usize
    ensures { result ≡ k / w }
{
    k.checked_div(w).unwrap_or(0)
}

fn remainder(k: usize, w: usize) -> usize
    ensures { result ≡ k % w }
{
    k.checked_rem(w).unwrap_or(k)
}

// A variable of type x is the part of type y that begins at its word k.
#[tactic(auto, unfolding(basics::specs::Choice::both))]
fn begins_whole(x: usize, y: usize, k: usize) -> bool
    ensures { result ≡ both (eqb x y) (eqb k 0) }
{
    x == y && k == 0
}

// The words of type f as a part of type x: none where its number is not lower.
#[tactic(auto, using(crate::proofs::Parts::part_words_lower, crate::proofs::Parts::part_words_none))]
fn part_words(c: &code::Slots, sizes: &[u16], x: usize, f: usize) -> usize
    requires { SmallSizes (decoded c.now) sizes.now }
    ensures { WordCount (part_words (decoded c.now) x f) result }
{
    if f < x { words_of(c, sizes, f) } else { 0 }
}

// The last type not below y, down the chain of only parts of x, where word k is one of a variable of type x.
#[tactic(auto, using(crate::proofs::Jumping::leading))]
fn chain_end(c: &code::Slots, sizes: &[u16], jumps: &[u16], x: usize, y: usize, k: usize) -> usize
    requires { PartSearch (decoded c.now) sizes.now jumps.now }
    ensures { LeadsAtWord (decoded c.now) y x k result }
{
    if k < words_of(c, sizes, x) {
        jumps::lowest(c, jumps, x, y)
    } else {
        x
    }
}

// A part of type y begins at word k of a variable of type x.
#[tactic(auto, using(crate::proofs::Jumping::end_part, crate::proofs::Parts::parts))]
#[cycle(part)]
fn part_begins(c: &code::Slots, sizes: &[u16], jumps: &[u16], x: usize, y: usize, k: usize) -> bool
    requires { PartSearch (decoded c.now) sizes.now jumps.now }
    ensures { result ≡ part (decoded c.now) y x k }
{
    let z = chain_end(c, sizes, jumps, x, y, k);
    if begins_whole(z, y, k) {
        return true;
    }
    match code::type_kind(c, z) {
        kinds::RECORD => part_of_fields(c, sizes, jumps, z, y, k),
        kinds::ARRAY => part_of_element(c, sizes, jumps, z, y, k),
        _ => false,
    }
}

#[tactic(auto, using(crate::proofs::Parts::fieldsearches))]
#[cycle(part)]
fn part_of_fields(
    c: &code::Slots,
    sizes: &[u16],
    jumps: &[u16],
    x: usize,
    y: usize,
    k: usize,
) -> bool
    requires { PartSearch (decoded c.now) sizes.now jumps.now }
    ensures { result ≡ fields_begin (decoded c.now) y x k }
{
    let first = code::type_p(c, x);
    let mut at = 0;
    for i in 0..code::type_q(c, x) {
        let f = code::field_type(c, first + i);
        if part_of_field(c, sizes, jumps, x, y, k, f, at) {
            return true;
        }
        at += part_words(c, sizes, x, f);
    }
    false
}

// The part begins in the field of type f that begins at word `at`.
#[tactic(auto, using(crate::proofs::Parts::fieldparts))]
#[cycle(part)]
fn part_of_field(
    c: &code::Slots,
    sizes: &[u16],
    jumps: &[u16],
    x: usize,
    y: usize,
    k: usize,
    f: usize,
    at: usize,
) -> bool
    requires part_search { PartSearch (decoded c.now) sizes.now jumps.now }
    requires at_bound { at ≤ 14000000 }
    ensures { result ≡ field_begins (decoded c.now) y x k f at }
{
    f < x && at <= k && k < at + words_of(c, sizes, f) && part_begins(c, sizes, jumps, f, y, k - at)
}

#[tactic(auto, using(crate::proofs::Parts::elementparts))]
#[cycle(part)]
fn part_of_element(
    c: &code::Slots,
    sizes: &[u16],
    jumps: &[u16],
    x: usize,
    y: usize,
    k: usize,
) -> bool
    requires { PartSearch (decoded c.now) sizes.now jumps.now }
    ensures { result ≡ element_begins (decoded c.now) y x k }
{
    let q = code::type_q(c, x);
    let words = words_of(c, sizes, q);
    q < x
        && quotient(k, words) < types::elements_of(c, x)
        && part_begins(c, sizes, jumps, q, y, remainder(k, words))
}

// The words of variable v in its area or frame.
#[tactic(auto, using(crate::proofs::Parts::var_words_one, crate::proofs::Parts::var_words_type))]
pub fn var_words(c: &code::Slots, sizes: &[u16], v: usize) -> usize
    requires { SmallSizes (decoded c.now) sizes.now }
    ensures { WordCount (var_words (decoded c.now) v) result }
{
    if code::var_mode(c, v) == kinds::VAR_PARAMETER {
        1
    } else {
        words_of(c, sizes, code::var_type(c, v))
    }
}

// A part of type y begins at word k, in the variable v that begins at word `at`, no var parameter.
#[tactic(auto, using(crate::proofs::Parts::variableparts))]
fn part_of_variable(
    c: &code::Slots,
    sizes: &[u16],
    jumps: &[u16],
    y: usize,
    k: usize,
    v: usize,
    at: usize,
) -> bool
    requires part_search { PartSearch (decoded c.now) sizes.now jumps.now }
    requires at_bound { at ≤ 14000000 }
    ensures { result ≡ variable_begins (decoded c.now) y k v at }
{
    at <= k
        && k < at + var_words(c, sizes, v)
        && code::var_mode(c, v) != kinds::VAR_PARAMETER
        && part_begins(c, sizes, jumps, code::var_type(c, v), y, k - at)
}

// A part of type y begins at word k of the variables of block b.
#[tactic(auto, using(crate::proofs::Parts::variablesearches, crate::proofs::Parts::sought_small))]
pub fn part_of_block(
    c: &code::Slots,
    sizes: &[u16],
    jumps: &[u16],
    b: usize,
    y: usize,
    k: usize,
) -> bool
    requires { PartSearch (decoded c.now) sizes.now jumps.now }
    ensures { result ≡ part_of_block (decoded c.now) b y k }
{
    let first = code::first_var(c, b);
    let mut at = 0;
    for i in 0..code::block_vars(c, b) {
        if part_of_variable(c, sizes, jumps, y, k, first + i, at) {
            return true;
        }
        at += var_words(c, sizes, first + i);
    }
    false
}
