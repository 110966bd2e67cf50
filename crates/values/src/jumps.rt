// Jumps down the chains of only parts (records of one field, arrays of one element), found once a call, so that a part at the end of a long
// chain is found in few steps. From each type on, a jump leads to its only part or further, so far that a chain of n types takes some
// 2 log n jumps: beside each jump stands its rank, and where two jumps in a row have one rank, they and the step before make one of the next.
ghost use Rattle.std.specs.Prelude.{◌≡◌, ◌%◌, ◌≤◌, ◌<◌, length};
ghost use Rattle.code.specs.Code.{decoded};
ghost use Rattle.values.specs.Jumps.{Jump, Leads, JumpWord, Jumps, JumpsTo};

use code::kinds;

// A jump to type j, of this rank.
fn packed(j: usize, rank: usize) -> usize
    requires { j < 512 }
    ensures { (result < 65536) × (result % 512 ≡ j) }
{
    if rank < 128 { rank * 512 + j } else { j }
}

// Where the jump of type x leads. Those of the types below `jumps.len()` are known; any other stays where it is.
#[tactic(auto, using(crate::proofs::Jumping::jumping))]
fn jump_of(c: &code::Slots, jumps: &[u16], x: usize) -> usize
    requires { Jumps (decoded c.now) jumps.now }
    ensures { Jump (decoded c.now) x result }
{
    if x < jumps.len() {
        usize::from(jumps[x]) % 512
    } else {
        x
    }
}

// Its rank: what is left of a word above the type is below 128.
fn rank_of(jumps: &[u16], x: usize) -> usize
    ensures { result < 128 }
{
    if x < jumps.len() {
        usize::from(jumps[x]) / 512 % 128
    } else {
        0
    }
}

// The only part of type x, or x itself.
#[tactic(auto, using(crate::proofs::Jumping::o_field, crate::proofs::Jumping::o_element))]
fn only_part(c: &code::Slots, x: usize) -> usize
    ensures { Jump (decoded c.now) x result }
{
    match code::type_kind(c, x) {
        kinds::RECORD if code::type_q(c, x) == 1 => {
            code::field_type(c, code::type_p(c, x)).min(x)
        }
        kinds::ARRAY if types::elements_of(c, x) == 1 => code::type_q(c, x).min(x),
        _ => x,
    }
}

#[tactic(auto, using(crate::proofs::Jumping::kept, crate::proofs::Jumping::kept_far, crate::proofs::Jumping::jump_self, crate::proofs::Jumping::jump_small))]
fn found_jump(c: &code::Slots, jumps: &[u16], x: usize) -> usize
    requires jumps { Jumps (decoded c.now) jumps.now }
    requires x_bound { x < 512 }
    ensures { JumpWord (decoded c.now) x result }
{
    let p = only_part(c, x);
    if p == x {
        return packed(x, 0);
    }
    let rank = rank_of(jumps, p);
    let j = jump_of(c, jumps, p);
    if 0 < rank && rank == rank_of(jumps, j) {
        packed(jump_of(c, jumps, j), rank + 1)
    } else {
        packed(p, 1)
    }
}

// Finds the jumps of the types below n.
#[tactic(auto, using(crate::proofs::Filling::lookup_part, crate::proofs::Filling::lookup_all, crate::proofs::Jumping::kept_small))]
pub fn find_jumps(c: &code::Slots, jumps: &mut [u16], n: usize)
    requires { (n ≤ 512) × (n ≤ length jumps.old) }
    ensures { JumpsTo (decoded c.now) n jumps.new }
{
    for x in 0..n {
        jumps[x] = found_jump(c, &jumps[..x], x) as u16;
    }
}

// A type down the chain from x, not below y: where its jump leads, or the next one; x itself where there is none.
#[tactic(auto, using(crate::proofs::Jumping::leading))]
fn step_of(c: &code::Slots, jumps: &[u16], x: usize, y: usize) -> usize
    requires { Jumps (decoded c.now) jumps.now }
    ensures { Leads (decoded c.now) y x result }
{
    let j = jump_of(c, jumps, x);
    if y <= j {
        return j;
    }
    let p = only_part(c, x);
    if y <= p { p } else { x }
}

// The last of them.
#[tactic(auto, using(crate::proofs::Jumping::leading))]
pub fn lowest(c: &code::Slots, jumps: &[u16], x: usize, y: usize) -> usize
    requires { Jumps (decoded c.now) jumps.now }
    ensures { Leads (decoded c.now) y x result }
{
    let mut z = x;
    let mut j = step_of(c, jumps, x, y);
    while j < z {
        z = j;
        j = step_of(c, jumps, z, y);
    }
    z
}
