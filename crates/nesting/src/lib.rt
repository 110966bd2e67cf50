// The rule of nesting, refusal 6 of the table's verdict: statements nest in the blocks as in the report's 4.2 and 11.6.
// The functions of a body and of arms call each other: the stack is as deep as the statements nest.
#![tactic(auto)]

ghost use Rattle.std.specs.Prelude.{◌≡◌, ◌<◌};
ghost use Rattle.code.specs.Code.{decoded};
ghost use Rattle.nesting.specs.Nest.{class_of, closed, after_block, block_end, nested};
ghost use Rattle.nesting.specs.Ends.{number_of, answer, ClassIs, BodyEnds, ArmsEnds, ArmEnds, StmtEnds};

use code::kinds;

// The classes of statements, in the order of the numbers that the rule has for them.
#[derive(Clone, Copy)]
enum Class {
    Simple,
    Opener,
    Arm,
    End,
    BlockEnd,
    Missing,
}

#[tactic(auto, using(crate::proofs::Classes::class_tested))]
fn class_of(k: usize) -> Class
    ensures { number_of result ≡ class_of k }
{
    match k {
        ..=kinds::START | kinds::WRITE => Class::Simple,
        kinds::IF..=kinds::CYCLE => Class::Opener,
        kinds::ARM => Class::Arm,
        kinds::END => Class::End,
        kinds::BLOCK_END => Class::BlockEnd,
        _ => Class::Missing,
    }
}

// The class of statement i; past the last there is none.
#[tactic(auto, using(crate::proofs::Flat::class_known))]
fn stmt_class(c: &code::Slots, i: usize) -> Class
    ensures { ClassIs (decoded c.now) i result }
{
    if i < code::statements(c) {
        return class_of(code::stmt_kind(c, i));
    }
    Class::Missing
}

// The number after the statement at i.
#[cycle(nest)]
#[tactic(auto, using(crate::proofs::Flat::statements))]
fn stmt_end(c: &code::Slots, i: usize) -> Option<usize>
    ensures { StmtEnds (decoded c.now) i result }
{
    match stmt_class(c, i) {
        Class::Simple => Some(i + 1),
        Class::Opener => arms_end(c, i, i + 1),
        _ => None,
    }
}

// The number after the body that begins at i.
#[cycle(nest)]
#[tactic(auto, using(crate::proofs::Flat::body_fails))]
fn body_end(c: &code::Slots, i: usize) -> Option<usize>
    ensures { BodyEnds (decoded c.now) i result }
{
    let mut j = i;
    loop {
        let k = stmt_end(c, j)?; // else no statement begins at j
        match stmt_class(c, k) {
            Class::Simple | Class::Opener => j = k,
            Class::Arm | Class::End | Class::BlockEnd | Class::Missing => return Some(k),
        }
    }
}

// The number after the body of the arm at i, which is its link.
#[cycle(nest)]
#[tactic(auto, using(crate::proofs::Flat::arms))]
fn arm_end(c: &code::Slots, i: usize) -> Option<usize>
    ensures { ArmEnds (decoded c.now) i result }
{
    let Class::Arm = stmt_class(c, i) else {
        return None;
    };
    let j = body_end(c, i + 1)?;
    if code::stmt_link(c, i) == j {
        return Some(j);
    }
    None
}

// The number after the end at j, where it is that of opener o.
#[tactic(auto, unfolding(crate::specs::Nest::closed))]
fn closing(c: &code::Slots, o: usize, j: usize) -> Option<usize>
    requires { j < 65536 }
    ensures { result ≡ answer (closed (decoded c.now) o j) }
{
    if code::stmt_link(c, j) == o {
        return Some(j + 1);
    }
    None
}

// The number after the arms of opener o that begin at i, and their end.
#[cycle(nest)]
#[tactic(auto, using(crate::proofs::Flat::arms_fail, crate::proofs::Flat::arms_stop))]
fn arms_end(c: &code::Slots, o: usize, i: usize) -> Option<usize>
    ensures { ArmsEnds (decoded c.now) o i result }
{
    let mut j = i;
    loop {
        let k = arm_end(c, j)?;
        match stmt_class(c, k) {
            Class::End => return closing(c, o, k),
            _ => j = k,
        }
    }
}

// The number after the block end at e of block b.
#[tactic(auto, unfolding(crate::specs::Nest::after_block))]
fn finish(c: &code::Slots, b: usize, e: usize) -> Option<usize>
    ensures { result ≡ answer (after_block (decoded c.now) b e) }
{
    match stmt_class(c, e) {
        Class::BlockEnd if code::stmt_a(c, e) == b => Some(e + 1),
        _ => None,
    }
}

// The number after block b, where j is free.
#[tactic(auto, using(crate::proofs::Flat::blocks))]
fn block_end(c: &code::Slots, b: usize, j: usize) -> Option<usize>
    ensures { result ≡ answer (block_end (decoded c.now) b j) }
{
    if code::first_stmt(c, b) != j {
        return None;
    }
    finish(c, b, body_end(c, j)?)
}

// The rule of nesting.
#[tactic(auto, using(crate::proofs::Flat::rounds))]
pub fn all_nested(c: &code::Slots) -> bool
    ensures { result ≡ nested (decoded c.now) }
{
    let mut j = 0;
    for b in 0..code::blocks(c) {
        let Some(e) = block_end(c, b, j) else {
            return false;
        };
        j = e;
    }
    j == code::statements(c)
}
