// Names, word symbols and special symbols (3.2, 3.3).
ghost use Rattle.std.specs.Prelude.{◌≡◌, map, ◌+◌, ◌*◌, ◌<◌, ◌≤◌, ◌%◌, length};
ghost use Rattle.symbols.specs.Characters.{in_name, small};
ghost use Rattle.symbols.specs.Steps.{if_any, one_of, packed};
ghost use Rattle.symbols.specs.Runs.{span_length};
ghost use Rattle.symbols.specs.Vocabulary.{name_length, special_length, word_symbols, is_word};

use super::characters::{in_name, is_letter, run, small};

// 3.3: how many bytes the name that begins here takes.
#[tactic(auto, using(crate::proofs::Fronts::names))]
pub fn name(text: &[u8]) -> Option<usize>
    ensures { result ≡ if_any (name_length text.now) }
{
    match text {
        [first, rest @ ..] if is_letter(*first) => { Some(1 + run(rest, in_name)) }
        _ => None,
    }
}

// The bytes of a name as one number: no word symbol has more than nine letters.
#[tactic(auto, using(crate::proofs::Keys::packs))]
fn key(name: &[u8]) -> u64
    requires { length name.now ≤ 9 }
    ensures { result ≡ packed (map small name.now) }
{
    let mut k: u64 = 0;
    for b in name.iter().rev() {
        k = k * 128 + u64::from(small(*b) % 128);
    }
    k
}

// The word symbols of 3.2, and mod, as numbers. (Tried: the proof of a match on the 25 byte strings did not close.)
#[tactic(auto, using(crate::proofs::Keys::keyed), unfolding(crate::specs::Steps::one_of, basics::specs::Choice::either))]
fn is_key(k: u64) -> bool
    ensures { result ≡ one_of k (map packed word_symbols) }
{
    match k {
        1652577 => true, // and
        32685996385 => true, // array
        29749801698 => true, // begin
        31381501923 => true, // const
        3501677181283 => true, // create
        27340111075 => true, // cycle
        14308 => true, // do
        213710437 => true, // else
        1652581 => true, // end
        13161 => true, // if
        1652717 => true, // mod
        1914862 => true, // not
        13167 => true, // of
        14703 => true, // or
        7342511327257819504 => true, // procedure
        509754040121712 => true, // process
        3466809897714 => true, // record
        236615155 => true, // skip
        27321202803 => true, // space
        31379192435 => true, // start
        213662964 => true, // type
        1782006 => true, // val
        1880310 => true, // var
        232354935 => true, // when
        27340207223 => true, // while
        _ => false,
    }
}

// Whether a name is a word symbol.
#[tactic(auto, using(crate::proofs::Keys::words))]
pub fn is_word(name: &[u8]) -> bool
    requires { span_length in_name name.now ≡ length name.now }
    ensures { result ≡ is_word name.now }
{
    name.len() <= 9 && is_key(key(name))
}

// How many bytes the special symbol that begins here takes.
#[tactic(auto, unfolding(crate::specs::Vocabulary::special_length, crate::specs::Vocabulary::special_symbols, crate::specs::Vocabulary::longest, crate::specs::Vocabulary::begins_with, basics::specs::Choice::both, crate::specs::Steps::if_any))]
pub fn special(text: &[u8]) -> Option<usize>
    ensures { result ≡ if_any (special_length text.now) }
{
    match text {
        [b'<', b'>' | b'=', ..] | [b'>' | b':', b'=', ..] | [b'.', b'.', ..] => Some(2),
        [b'(' | b')' | b'*' | b'+' | b',' | b'-' | b'.' | b'/', ..] => Some(1),
        [b':' | b';' | b'<' | b'=' | b'>' | b'[' | b']', ..] => Some(1),
        _ => None,
    }
}
