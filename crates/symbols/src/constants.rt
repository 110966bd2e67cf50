// Numerals, character symbols and constants (6.1 to 6.3): how many bytes the one that begins here takes.
ghost use Rattle.std.specs.Prelude.{◌≡◌, ◌<◌, ◌≤◌, length, IfSome};
ghost use Rattle.symbols.specs.Constants.{numeral_length, character_length, characters_length, constant_length};
ghost use Rattle.symbols.specs.Steps.{if_any};

use super::characters::{is_digit, is_octal_digit, is_standing, run};

// Nothing begins where no byte is taken.
#[tactic(auto, unfolding(crate::specs::Steps::if_any))]
fn if_any(length: usize) -> Option<usize>
    ensures is { result ≡ if_any length }
    ensures same { IfSome result (λ n. (0 < n) × (n ≡ length)) }
{
    if length == 0 { None } else { Some(length) }
}

// 6.1.
#[tactic(auto, using(crate::proofs::Fronts::octal_none, crate::proofs::Fronts::octal_some, crate::proofs::Fronts::decimal_short, crate::proofs::Fronts::decimal_other))]
pub fn numeral(text: &[u8]) -> Option<usize>
    ensures is { result ≡ if_any (numeral_length text.now) }
    ensures within { IfSome result (λ n. (0 < n) × (n ≤ length text.now)) }
{
    match text {
        [b'#', rest @ ..] => Some(if_any(run(rest, is_octal_digit))? + 1),
        _ => if_any(run(text, is_digit)),
    }
}

// 6.2: a graphic that stands for itself, or @ and a numeral.
#[tactic(auto, using(crate::proofs::Fronts::escape_none, crate::proofs::Fronts::escape_some, crate::proofs::Fronts::standing_one, crate::proofs::Fronts::standing_none, crate::proofs::Fronts::character_short))]
pub fn character(text: &[u8]) -> Option<usize>
    ensures is { result ≡ if_any (character_length text.now) }
    ensures within { IfSome result (λ n. (0 < n) × (n ≤ length text.now)) }
{
    match text {
        [b'@', rest @ ..] => Some(numeral(rest)? + 1),
        [b, ..] if is_standing(*b) => Some(1),
        _ => None,
    }
}

// The character symbols at the front.
#[tactic(auto, using(crate::proofs::Strings::strings))]
fn characters(text: &[u8]) -> usize
    ensures { result ≡ characters_length 0 text.now }
{
    let mut at = 0;
    while let Some(size) = character(&text[at..]) {
        at += size;
    }
    at
}

// 6.2, 6.3: one character symbol or more between apostrophes.
#[tactic(auto, using(crate::proofs::Fronts::constants))]
pub fn constant(text: &[u8]) -> Option<usize>
    ensures { result ≡ if_any (constant_length text.now) }
{
    match text {
        [b'\'', rest @ ..] => {
            let size = characters(rest);
            if 0 < size && size < rest.len() && rest[size] == b'\'' {
                Some(size + 2)
            } else {
                None
            }
        }
        _ => None,
    }
}
