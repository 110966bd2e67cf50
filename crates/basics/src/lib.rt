// What every crate's definitions and laws share, in specs/ and proofs/; and the marks that count occurrences.
#![tactic(auto, unfolding(crate::specs::Choice::both, crate::specs::Choice::between, crate::specs::Loops::with_mark))]

ghost use Rattle.std.specs.Prelude.{◌≡◌};
ghost use Rattle.basics.specs.Choice.{between};
ghost use Rattle.basics.specs.Loops.{with_mark};

// x is from a to b.
pub fn between(a: usize, b: usize, x: usize) -> bool
    ensures { result ≡ between a b x }
{
    a <= x && x <= b
}

// Notes one more occurrence of x, up to two.
pub fn mark(seen: &mut [u8], x: usize)
    ensures { seen.new ≡ with_mark x seen.old }
{
    if x < seen.len() && seen[x] < 2 {
        seen[x] += 1;
    }
}
