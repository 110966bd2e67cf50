// The standard types (5.1) and type transfers (9.2).
ghost use Rattle.std.specs.Prelude.{◌≡◌};
ghost use Rattle.words.specs.Values.{outcome_of};
ghost use Rattle.words.specs.Types.{in_type, transfer_w};

use super::numbers::integer;
use super::values::Failure;

#[derive(Clone, Copy)]
pub struct Integer {}

impl Integer {
    pub const TYPE: usize = 0;

    pub const LOWEST: i32 = -32768;

    pub const HIGHEST: i32 = 32767;
}

#[derive(Clone, Copy)]
pub struct Boolean {}

impl Boolean {
    pub const TYPE: usize = 1;

    pub const LOWEST: i32 = 0;

    pub const HIGHEST: i32 = 1;
}

#[derive(Clone, Copy)]
pub struct Character {}

impl Character {
    pub const TYPE: usize = 2;

    pub const LOWEST: i32 = 0;

    pub const HIGHEST: i32 = 127;
}

// The word is a value of the standard type with this number; no word is one of another type.
#[tactic(auto, using(crate::proofs::StandardTypes::typed, crate::proofs::Arithmetic::conversions))]
pub fn is_value(number: usize, w: u16) -> bool
    ensures { result ≡ in_type number w }
{
    let z = integer(w);
    match number {
        Integer::TYPE => (Integer::LOWEST..=Integer::HIGHEST).contains(&z),
        Boolean::TYPE => (Boolean::LOWEST..=Boolean::HIGHEST).contains(&z),
        Character::TYPE => (Character::LOWEST..=Character::HIGHEST).contains(&z),
        _ => false,
    }
}

// A transfer keeps the word, which must be a value of the new type (01, answer 23).
#[tactic(auto, unfolding(crate::specs::Types::transfer_w))]
pub fn transfer(number: usize, w: u16) -> Result<u16, Failure>
    ensures { outcome_of result ≡ transfer_w number w }
{
    if is_value(number, w) {
        Ok(w)
    } else {
        Err(Failure::NoValue)
    }
}
