// What an operation fails by, in place of a word (01, step answers).
ghost use Rattle.std.specs.Prelude.{◌≡◌};
ghost use Rattle.words.specs.Values.{failure_number};

#[derive(Clone, Copy, PartialEq, Eq, Debug)]
pub enum Failure {
    ResultRange,
    DivisorZero,
    IndexRange,
    EmptyReference,
    StartedTwice,
    DeviceAddress,
    AreaFull,
    NoValue,
    ProcessLimit,
    Unset,
}

// The answer byte of a step that fails so.
impl From<Failure> for u8 {
    ghost from_gives = { λ f n. n ≡ failure_number f };

    fn from(f: Failure) -> u8 {
        match f {
            Failure::ResultRange => 16,
            Failure::DivisorZero => 17,
            Failure::IndexRange => 18,
            Failure::EmptyReference => 19,
            Failure::StartedTwice => 20,
            Failure::DeviceAddress => 21,
            Failure::AreaFull => 22,
            Failure::NoValue => 23,
            Failure::ProcessLimit => 24,
            Failure::Unset => 31,
        }
    }
}
