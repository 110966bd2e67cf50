// Theorems about the definitions of `machine`, in proofs/. One function, so that the crate exists.
#![tactic(auto)]

ghost use Rattle.std.specs.Prelude.{◌≡◌};

pub fn keep(x: u64) -> u64
    ensures { result ≡ x }
{
    x
}
