// The operators of sections 10.1 to 10.3 on words.
ghost use Rattle.std.specs.Prelude.{◌≡◌, ◌/◌, ◌<◌, ◌≤◌};
ghost use Rattle.words.specs.Values.{outcome_of};
ghost use Rattle.words.specs.Magnitudes.{negative, magnitude_of, signed_z};
ghost use Rattle.words.specs.Operators.{ranged, add_w, sub_w, neg_w, mul_w, div_w, mod_w, lt_w, le_w, not_w, and_w, or_w, not_b, and_b, or_b, bool_word};
ghost use Rattle.words.specs.Relations.{eq_w, ne_w, gt_w, ge_w};

use super::numbers::integer;
use super::types::Integer;
use super::values::Failure;

// A result outside the range of integers fails (10.2).
#[tactic(auto, using(crate::proofs::Arithmetic::conversions))]
fn in_range(z: i32) -> Result<u16, Failure>
    ensures { outcome_of result ≡ ranged z }
{
    if (Integer::LOWEST..=Integer::HIGHEST).contains(&z) {
        Ok((z & 65535) as u16)
    } else {
        Err(Failure::ResultRange)
    }
}

#[tactic(auto, using(crate::proofs::Arithmetic::arithmetic))]
pub fn add(a: u16, b: u16) -> Result<u16, Failure>
    ensures { outcome_of result ≡ add_w a b }
{
    in_range(integer(a) + integer(b))
}

#[tactic(auto, using(crate::proofs::Arithmetic::arithmetic))]
pub fn sub(a: u16, b: u16) -> Result<u16, Failure>
    ensures { outcome_of result ≡ sub_w a b }
{
    in_range(integer(a) - integer(b))
}

#[tactic(auto, using(crate::proofs::Arithmetic::arithmetic))]
pub fn neg(a: u16) -> Result<u16, Failure>
    ensures { outcome_of result ≡ neg_w a }
{
    sub(0, a)
}

#[tactic(auto, using(crate::proofs::Arithmetic::arithmetic))]
pub fn mul(a: u16, b: u16) -> Result<u16, Failure>
    ensures { outcome_of result ≡ mul_w a b }
{
    in_range(integer(a) * integer(b))
}

// Division goes by sign and magnitude, so that its two rules (01: / rounds towards zero, mod has the dividend's sign)
// stand in the code and are not left to the machine.
fn is_negative(w: u16) -> bool
    ensures { result ≡ negative w }
{
    32768 <= w
}

fn magnitude(w: u16) -> u32
    ensures { (result ≡ magnitude_of w) × (result ≤ 32768) }
{
    if w < 32768 {
        u32::from(w)
    } else {
        65536 - u32::from(w)
    }
}

fn signed(minus: bool, m: u32) -> i32
    requires { m ≤ 32768 }
    ensures { result ≡ signed_z minus m }
{
    if minus { -(m as i32) } else { m as i32 }
}

// Of magnitudes, so it rounds towards zero whatever the signs.
fn quotient(m: u32, n: u32) -> u32
    requires { 0 < n }
    ensures { result ≡ m / n }
{
    m / n
}

#[tactic(auto, using(crate::proofs::Divisions::divisions))]
pub fn div(a: u16, b: u16) -> Result<u16, Failure>
    ensures { outcome_of result ≡ div_w a b }
{
    if b == 0 {
        return Err(Failure::DivisorZero);
    }
    in_range(signed(
        is_negative(a) != is_negative(b),
        quotient(magnitude(a), magnitude(b)),
    ))
}

#[tactic(auto, using(crate::proofs::Divisions::divisions))]
pub fn modulus(a: u16, b: u16) -> Result<u16, Failure>
    ensures { outcome_of result ≡ mod_w a b }
{
    if b == 0 {
        return Err(Failure::DivisorZero);
    }
    in_range(signed(is_negative(a), magnitude(a) % magnitude(b)))
}

// The six relations, by the report's names (10.1).
pub fn equal(a: u16, b: u16) -> bool
    ensures { result ≡ eq_w a b }
{
    a == b
}

pub fn not_equal(a: u16, b: u16) -> bool
    ensures { result ≡ ne_w a b }
{
    a != b
}

#[tactic(auto, using(crate::proofs::Arithmetic::arithmetic))]
pub fn less(a: u16, b: u16) -> bool
    ensures { result ≡ lt_w a b }
{
    integer(a) < integer(b)
}

#[tactic(auto, using(crate::proofs::Arithmetic::arithmetic))]
pub fn not_greater(a: u16, b: u16) -> bool
    ensures { result ≡ le_w a b }
{
    integer(a) <= integer(b)
}

pub fn greater(a: u16, b: u16) -> bool
    ensures { result ≡ gt_w a b }
{
    less(b, a)
}

pub fn not_less(a: u16, b: u16) -> bool
    ensures { result ≡ ge_w a b }
{
    not_greater(b, a)
}

// On integers: all bits (10.2).
pub fn not_bits(a: u16) -> u16
    ensures { result ≡ not_w a }
{
    !a
}

pub fn and_bits(a: u16, b: u16) -> u16
    ensures { result ≡ and_w a b }
{
    a & b
}

pub fn or_bits(a: u16, b: u16) -> u16
    ensures { result ≡ or_w a b }
{
    a | b
}

// On booleans (10.3).
pub fn boolean(x: bool) -> u16
    ensures { result ≡ bool_word x }
{
    u16::from(x)
}

#[tactic(auto, unfolding(crate::specs::Operators::not_b))]
pub fn not_boolean(x: u16) -> u16
    ensures { result ≡ not_b x }
{
    if x == 0 { 1 } else { 0 }
}

#[tactic(auto, unfolding(crate::specs::Operators::and_b))]
pub fn and_boolean(x: u16, y: u16) -> u16
    ensures { result ≡ and_b x y }
{
    if y == 0 { 0 } else { x }
}

#[tactic(auto, unfolding(crate::specs::Operators::or_b))]
pub fn or_boolean(x: u16, y: u16) -> u16
    ensures { result ≡ or_b x y }
{
    if y == 0 { x } else { 1 }
}
