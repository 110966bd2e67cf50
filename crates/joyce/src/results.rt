// What C sees of a call that is refused or not.
ghost use Rattle.std.specs.Prelude.{◌≡◌};
ghost use Rattle.verdict.specs.Refusals.{verdict_number};

use verdict::Refusal;

pub fn number_of(answer: Result<(), Refusal>) -> u32
    ensures { result ≡ verdict_number answer }
{
    match answer {
        Ok(()) => 0,
        Err(refusal) => refusal.into(),
    }
}
