// What is read of a state and of a table at a place: words, the words of a type, and the index of an element (8.5, 8.7).
ghost use Rattle.std.specs.Prelude.{◌≡◌, ◌<◌, ◌≤◌, length};
ghost use Rattle.types.specs.Types.{type_of};
ghost use Rattle.sizes.specs.Sizes.{words_of};
ghost use Rattle.machine.specs.Memory.{memory_of, words_at};
ghost use Rattle.machine.specs.Operands.{same};
ghost use Rattle.machine.specs.Layout.{state_size, locations};
ghost use Rattle.code.specs.Code.{decoded};
ghost use Rattle.operands.specs.Answers.{single};
ghost use Rattle.operands.specs.Packed.{WordIs, value_at};
ghost use Rattle.operands.specs.Places.{IndexIs, WordsInAreas};
ghost use Rattle.operands.specs.Ready.{Sized, Valued, Counted};

use super::packed::UNSET;
use words::memory::get;

// The word at a location.
#[tactic(auto, using(crate::proofs::Standing::standing))]
pub fn word_at(state: &[u8], a: usize) -> u16
    requires { (length state.now ≡ state_size) × (a < locations) }
    ensures { result ≡ memory_of state.now a }
{
    get(state, a)
}

// The value of a variable of one word at a location (8.7), which must be marked (02, g).
#[tactic(auto, using(crate::proofs::Packing::valuing))]
pub fn value_at(state: &[u8], a: usize) -> u32
    requires { (length state.now ≡ state_size) × (a < locations) }
    ensures { WordIs (value_at (memory_of state.now) a) result }
{
    if marks::is_marked(state, a) {
        u32::from(word_at(state, a))
    } else {
        UNSET
    }
}

// The words of type y.
#[tactic(auto, using(crate::proofs::Standing::standing))]
pub fn words_of(c: &code::Slots, y: usize) -> usize
    requires { Sized c.now y }
    ensures { (result ≡ words_of (decoded c.now) y) × (result ≤ 200) }
{
    code::words_of(c, y)
}

// The words of node n's value.
#[tactic(auto, using(crate::proofs::Standing::standing))]
pub fn node_words(c: &code::Slots, n: usize) -> usize
    requires { Valued c.now n }
    ensures { (result ≡ words_of (decoded c.now) (type_of (decoded c.now) n)) × (result ≤ 200) }
{
    words_of(c, code::type_of(c, n))
}

// The value of node n has one word, and is no text: the type of a string constant has no number, and so no words here.
#[tactic(auto, using(crate::proofs::Standing::standing))]
pub fn is_single(c: &code::Slots, n: usize) -> bool
    requires { Counted c.now n }
    ensures { result ≡ single (decoded c.now) n }
{
    code::words_of(c, code::type_of(c, n)) == 1
}

// Outside the array: every element has fewer before it.
pub const OUTSIDE: usize = 65536;

// How many elements lie before the one with index value i, of index values from low to high (8.5), or OUTSIDE.
#[tactic(auto, using(crate::proofs::Indexes::finding))]
pub fn index_of(low: usize, high: usize, i: usize) -> usize
    requires { (low < 65536) × ((high < 65536) × (i < 65536)) }
    ensures { IndexIs low high i result }
{
    let l = types::offset_of(low);
    let x = types::offset_of(i);
    if l <= x && x <= types::offset_of(high) {
        x - l
    } else {
        OUTSIDE
    }
}

// The n words at two locations are the same.
pub fn same_words(state: &[u8], a: usize, b: usize, n: usize) -> bool
    requires { WordsInAreas state.now a b n }
    ensures { result ≡ same (words_at (memory_of state.now) a n) (words_at (memory_of state.now) b n) }
{
    (0..n).all(|i| word_at(state, a + i) == word_at(state, b + i))
}
