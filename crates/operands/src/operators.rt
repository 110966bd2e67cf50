// The operators by their numbers (10).
ghost use Rattle.std.specs.Prelude.{◌≡◌, length};
ghost use Rattle.words.specs.Outcomes as words;
ghost use Rattle.words.specs.Operators.{bool_word};
ghost use Rattle.words.specs.Values.{outcome_of};
ghost use Rattle.operands.specs.Operators.{unary_word, logic, equality, binary_word};
ghost use Rattle.operands.specs.Packed.{WordIs};
ghost use Rattle.machine.specs.Layout.{page_size};

use super::packed::packed;
use code::{kinds, operators};
use words::values::Failure;

// Unary operator o at a word of type y.
#[tactic(auto, using(basics::proofs::Tests::tests), unfolding(crate::specs::Operators::unary_word))]
pub fn apply_unary(page: &[u8], o: usize, y: usize, w: u16) -> Result<u16, Failure>
    requires { length page.now ≡ page_size }
    ensures { outcome_of result ≡ unary_word page.now o y w }
{
    match (o, y) {
        (operators::MINUS, _) => words::operators::neg(w),
        (operators::NOT, kinds::INTEGER) => Ok(words::operators::not_bits(w)),
        (operators::NOT, _) => Ok(words::operators::not_boolean(w)),
        _ => words::devices::read_device(page, w),
    }
}

// and, or: on all bits of integers (10.2), on booleans (10.3).
#[tactic(auto, using(basics::proofs::Tests::tests), unfolding(crate::specs::Operators::logic))]
fn apply_logic(o: usize, y: usize, u: u16, v: u16) -> u16
    ensures { result ≡ logic o y u v }
{
    match (o, y) {
        (operators::AND, kinds::INTEGER) => words::operators::and_bits(u, v),
        (operators::AND, _) => words::operators::and_boolean(u, v),
        (_, kinds::INTEGER) => words::operators::or_bits(u, v),
        _ => words::operators::or_boolean(u, v),
    }
}

// What a comparison found, as an answer (10.1).
#[tactic(auto, using(crate::proofs::Applying::applies))]
fn truth(b: bool) -> u32
    ensures { WordIs (words.word (bool_word b)) result }
{
    u32::from(words::operators::boolean(b))
}

// Binary operator o at the words of two operands, the first of type y, as one number, which needs no memory.
#[tactic(auto, using(crate::proofs::Applying::applies), unfolding(crate::specs::Operators::binary_word))]
pub fn apply_binary(o: usize, y: usize, u: u16, v: u16) -> u32
    ensures { WordIs (binary_word o y u v) result }
{
    match o {
        operators::EQUAL => truth(words::operators::equal(u, v)),
        operators::NOT_EQUAL => truth(words::operators::not_equal(u, v)),
        operators::LESS => truth(words::operators::less(u, v)),
        operators::NOT_GREATER => truth(words::operators::not_greater(u, v)),
        operators::GREATER => truth(words::operators::greater(u, v)),
        operators::NOT_LESS => truth(words::operators::not_less(u, v)),
        operators::ADD => packed(words::operators::add(u, v)),
        operators::SUBTRACT => packed(words::operators::sub(u, v)),
        operators::MULTIPLY => packed(words::operators::mul(u, v)),
        operators::DIVIDE => packed(words::operators::div(u, v)),
        operators::MODULUS => packed(words::operators::modulus(u, v)),
        _ => u32::from(apply_logic(o, y, u, v)),
    }
}

// = and <>, of values that are the same or not.
#[tactic(auto, using(basics::proofs::Tests::tests), unfolding(crate::specs::Operators::equality))]
pub fn apply_equality(o: usize, same: bool) -> u16
    ensures { result ≡ equality o same }
{
    words::operators::boolean((o == operators::EQUAL) == same)
}
