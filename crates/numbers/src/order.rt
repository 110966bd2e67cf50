// Rows that take the numbers of another section in order: records fields, blocks variables, calls arguments, strings characters.
ghost use Rattle.std.specs.Prelude.{◌≡◌, Bool, ℕ, ◌<◌};
ghost use Rattle.basics.specs.Chain.{taken};
ghost use Rattle.code.specs.Code.{decoded};
ghost use Rattle.table.specs.Kinds.{is_call};
ghost use Rattle.numbers.specs.Declarations.{fields_taken};
ghost use Rattle.numbers.specs.Blocks.{variables_taken};
ghost use Rattle.numbers.specs.Operands.{arguments_taken, characters_taken};
ghost use Rattle.numbers.specs.Takes.{Takes, Fields};

use code::kinds;

// Whether n rows take all of `total` numbers in order, with none left. Of a row that takes some, `row` gives the first and how many.
fn taken<F: Fn(usize) -> Option<(usize, usize)>>(n: usize, total: usize, row: F) -> bool
    requires callable { (i : ℕ) → i < n → F.pre row i }
    requires small { (i : ℕ) (r : _) → F.post row i r → Fields r }
    ensures { (takes : ℕ → Bool) (first count : ℕ → ℕ) → ((i : ℕ) (r : _) → F.post row i r → Takes takes first count i r) → result ≡ taken takes first count n total }
{
    let mut free = 0;
    for i in 0..n {
        if let Some((first, count)) = row(i) {
            let gap = first != free;
            if gap {
                return false;
            }
            free = first + count;
        }
    }
    free == total
}

pub fn fields_taken(c: &code::Slots) -> bool
    ensures { result ≡ fields_taken (decoded c.now) }
{
    taken(code::types(c), code::fields(c), |i| {
        let x = kinds::STANDARD + i;
        (code::type_kind(c, x) == kinds::RECORD).then(|| (code::type_p(c, x), code::type_q(c, x)))
    })
}

pub fn variables_taken(c: &code::Slots) -> bool
    ensures { result ≡ variables_taken (decoded c.now) }
{
    taken(
        code::blocks(c),
        code::variables(c),
        |b| Some((code::first_var(c, b), code::block_vars(c, b))),
    )
}

#[tactic(auto, using(crate::proofs::Rows::call_tested), unfolding(basics::specs::Choice::both, basics::specs::Choice::between))]
fn is_call(c: &code::Slots, i: usize) -> bool
    ensures { result ≡ is_call (decoded c.now) i }
{
    matches!(
        code::stmt_kind(c, i),
        kinds::LOCAL_CALL | kinds::PROCESS_CALL | kinds::START
    )
}

pub fn arguments_taken(c: &code::Slots) -> bool
    ensures { result ≡ arguments_taken (decoded c.now) }
{
    taken(code::statements(c), code::arguments(c), |i| {
        is_call(c, i).then(|| (code::stmt_c(c, i), code::stmt_d(c, i)))
    })
}

pub fn characters_taken(c: &code::Slots) -> bool
    ensures { result ≡ characters_taken (decoded c.now) }
{
    taken(code::nodes(c), code::characters(c), |n| {
        code::is_string(c, n).then(|| (code::node_p(c, n), code::node_q(c, n)))
    })
}
