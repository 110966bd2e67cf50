// Blocks, and the modes of their variables.
#![tactic(auto, unfolding(basics::specs::Choice::both, basics::specs::Choice::between, crate::specs::Blocks::program_placed, crate::specs::Blocks::owner_ranged, crate::specs::Blocks::space_ranged, crate::specs::Blocks::mode_placed, crate::specs::Blocks::variables_placed, crate::specs::Blocks::block_placed, crate::specs::Blocks::block_ranged))]

ghost use Rattle.std.specs.Prelude.{◌≡◌, ◌+◌, ◌<◌};
ghost use Rattle.basics.specs.Choice.{all_below};
ghost use Rattle.code.specs.Code.{decoded};
ghost use Rattle.table.specs.Entries.{vars, block_count};
ghost use Rattle.numbers.specs.Blocks.{program_placed, owner_ranged, block_placed, space_ranged, mode_placed, variables_placed, block_ranged};

use code::kinds;

// Block 0 is the only program and has no parameters.
fn program_placed(c: &code::Slots, b: usize) -> bool
    ensures { result ≡ program_placed (decoded c.now) b }
{
    let k = code::block_kind(c, b);
    if b == 0 {
        k == kinds::PROGRAM && code::block_params(c, b) == 0
    } else {
        kinds::MODULE <= k
    }
}

fn owner_ranged(c: &code::Slots, b: usize) -> bool
    ensures { result ≡ owner_ranged (decoded c.now) b }
{
    let o = code::block_owner(c, b);
    if code::block_kind(c, b) == kinds::PROCEDURE {
        o < code::blocks(c) && code::block_kind(c, o) <= kinds::MODULE
    } else {
        o == b
    }
}

fn space_ranged(c: &code::Slots, b: usize) -> bool
    ensures { result ≡ space_ranged (decoded c.now) b }
{
    let x = code::block_space(c, b);
    if code::block_kind(c, b) == kinds::PROCEDURE {
        x == 0
    } else {
        x <= 510 && x % 2 == 0
    }
}

// Variable j of block b is a parameter or a local, by its place.
fn mode_placed(c: &code::Slots, b: usize, j: usize) -> bool
    requires { j < 65536 }
    ensures { result ≡ mode_placed (decoded c.now) b j }
{
    let m = code::var_mode(c, code::first_var(c, b) + j);
    if j < code::block_params(c, b) {
        (kinds::VALUE_PARAMETER..=kinds::VAR_PARAMETER).contains(&m)
    } else {
        m == kinds::LOCAL
    }
}

fn modes_placed(c: &code::Slots, b: usize) -> bool
    ensures { result ≡ all_below (vars (decoded c.now) b) (mode_placed (decoded c.now) b) }
{
    (0..code::block_vars(c, b)).all(|j| mode_placed(c, b, j))
}

fn variables_placed(c: &code::Slots, b: usize) -> bool
    ensures { result ≡ variables_placed (decoded c.now) b }
{
    code::block_params(c, b) <= code::block_vars(c, b) && modes_placed(c, b)
}

fn block_placed(c: &code::Slots, b: usize) -> bool
    ensures { result ≡ block_placed (decoded c.now) b }
{
    program_placed(c, b) && owner_ranged(c, b)
}

fn block_ranged(c: &code::Slots, b: usize) -> bool
    ensures { result ≡ block_ranged (decoded c.now) b }
{
    block_placed(c, b)
        && code::first_stmt(c, b) < code::statements(c)
        && space_ranged(c, b)
        && variables_placed(c, b)
}

pub fn all_blocks(c: &code::Slots) -> bool
    ensures { result ≡ all_below (block_count (decoded c.now)) (block_ranged (decoded c.now)) }
{
    (0..code::blocks(c)).all(|b| block_ranged(c, b))
}
