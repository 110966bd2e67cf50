// Characters (3.1): graphics are bytes 32..126, new line is 10 (02).
ghost use Rattle.std.specs.Prelude.{◌≡◌, ◌≤◌, length};
ghost use Rattle.symbols.specs.Runs.{span_length};
ghost use Rattle.symbols.specs.Steps.{Tests};
ghost use Rattle.symbols.specs.Characters.{letter, digit, octal_digit, in_name, in_comment, plain_graphic, small};

#[tactic(auto, unfolding(crate::specs::Characters::letter, basics::specs::Choice::between, basics::specs::Choice::both, basics::specs::Choice::either))]
pub fn is_letter(b: u8) -> bool
    ensures { result ≡ letter b }
{
    b.is_ascii_alphabetic()
}

#[tactic(auto, unfolding(crate::specs::Characters::digit, basics::specs::Choice::between, basics::specs::Choice::both))]
pub fn is_digit(b: u8) -> bool
    ensures { result ≡ digit b }
{
    b.is_ascii_digit()
}

#[tactic(auto, unfolding(crate::specs::Characters::octal_digit, basics::specs::Choice::between, basics::specs::Choice::both))]
pub fn is_octal_digit(b: u8) -> bool
    ensures { result ≡ octal_digit b }
{
    matches!(b, b'0'..=b'7')
}

// A letter or a digit.
#[tactic(auto, unfolding(crate::specs::Characters::in_name, crate::specs::Characters::letter, crate::specs::Characters::digit, basics::specs::Choice::between, basics::specs::Choice::both, basics::specs::Choice::either))]
pub fn in_name(b: u8) -> bool
    ensures { result ≡ in_name b }
{
    b.is_ascii_alphanumeric()
}

// A character other than the quote.
#[tactic(auto, unfolding(crate::specs::Characters::in_comment, crate::specs::Characters::graphic, basics::specs::Choice::between, basics::specs::Choice::both))]
pub fn in_comment(b: u8) -> bool
    ensures { result ≡ in_comment b }
{
    b != b'"' && matches!(b, b'\n' | b' '..=b'~')
}

// A graphic that stands for itself in a constant.
#[tactic(auto, unfolding(crate::specs::Characters::plain_graphic, crate::specs::Characters::graphic, basics::specs::Choice::between, basics::specs::Choice::both))]
pub fn is_standing(b: u8) -> bool
    ensures { result ≡ plain_graphic b }
{
    !matches!(b, b'\'' | b'@') && matches!(b, b' '..=b'~')
}

#[tactic(auto, unfolding(crate::specs::Characters::small, basics::specs::Choice::between, basics::specs::Choice::both))]
pub fn small(b: u8) -> u8
    ensures { result ≡ small b }
{
    b.to_ascii_lowercase()
}

// How many bytes at the front are of a class.
pub fn run<F: Fn(u8) -> bool>(text: &[u8], is_in: F) -> usize
    requires { F.IsAlwaysCallable is_in }
    ensures is { (class : _) → Tests (F.post is_in) class → result ≡ span_length class text.now }
    ensures within { result ≤ length text.now }
{
    text.iter().take_while(|b| is_in(**b)).count()
}
