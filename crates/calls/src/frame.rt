// The words of frames (01, A step).
ghost use Rattle.std.specs.Prelude.{◌≡◌, ◌≤◌, ◌<◌};
ghost use Rattle.table.specs.Entries.{block_count, block_kind, var_type};
ghost use Rattle.machine.specs.Variables.{var_words};
ghost use Rattle.code.specs.Code.{decoded};
ghost use Rattle.prepare.specs.Prepared.{Prepared};
ghost use Rattle.operands.specs.Ready.{Sized};
ghost use Rattle.calls.specs.Framing.{Framing, FrameCount};

use code::kinds;

// A variable takes the words of its type, a var parameter one.
#[tactic(auto, using(crate::proofs::Framing::counts))]
fn var_words(c: &code::Slots, v: usize) -> usize
    requires { Sized c.now (var_type (decoded c.now) v) }
    ensures { (result ≡ var_words (decoded c.now) v) × (result ≤ 200) }
{
    if code::var_mode(c, v) == kinds::VAR_PARAMETER {
        return 1;
    }
    operands::places::words_of(c, code::var_type(c, v))
}

// The words of procedure q's variables, which stand beside the table.
pub fn procedure_words(c: &code::Slots, q: usize) -> usize
    requires prepared { Prepared c.now }
    requires q_bound { (q < block_count (decoded c.now)) × (block_kind (decoded c.now) q ≡ 2) }
    ensures { FrameCount (decoded c.now) q result }
{
    code::room_of(c, q)
}

// The words of block b's variables: where its last one begins, and the words of that one.
#[tactic(auto, using(crate::proofs::Framing::counts))]
pub fn frame_words(c: &code::Slots, b: usize) -> usize
    requires { Framing c.now b }
    ensures { FrameCount (decoded c.now) b result }
{
    let count = code::block_vars(c, b);
    if count == 0 {
        return 0;
    }
    let last = code::first_var(c, b) + (count - 1);
    code::offset_of(c, last) + var_words(c, last)
}
