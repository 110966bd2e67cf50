// The integer that a word stands for (5.1.1). Signed numbers are for this crate's own use: above it words are u16.
ghost use Rattle.std.specs.Prelude.{◌≡◌};
ghost use Rattle.words.specs.Numbers.{int_of};

pub fn integer(w: u16) -> i32
    ensures { result ≡ int_of w }
{
    // without a branch: the compiler makes it one sign extension
    i32::from(w.cast_signed())
}
