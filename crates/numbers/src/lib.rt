// Refusal 4: numbers lie in their sections and ranges, are of the right sort and stand in order.
#![tactic(auto, unfolding(basics::specs::Choice::both, crate::specs::Ranges::in_order, crate::specs::Ranges::types_ranged, crate::specs::Ranges::declarations_ranged, crate::specs::Ranges::operands_ranged, crate::specs::Ranges::in_range))]

pub mod sorts; // nodes and blocks of the sort that a place asks
pub mod order; // numbers that are taken in order
pub mod declared; // types, fields, variables
pub mod blocks; // blocks, and the modes of their variables
pub mod operands; // arguments, nodes, statements

ghost use Rattle.std.specs.Prelude.{◌≡◌, ◌<◌};
ghost use Rattle.code.specs.Code.{decoded};
ghost use Rattle.types.specs.Kept.{Types};
ghost use Rattle.numbers.specs.Marking.{Clear};
ghost use Rattle.numbers.specs.Ranges.{in_order, types_ranged, declarations_ranged, operands_ranged, in_range};

fn in_order(c: &code::Slots) -> bool
    ensures { result ≡ in_order (decoded c.now) }
{
    order::fields_taken(c)
        && order::variables_taken(c)
        && order::arguments_taken(c)
        && order::characters_taken(c)
}

fn types_ranged(c: &code::Slots, marks: &mut [u8]) -> bool
    requires { Clear (decoded c.now) marks.old }
    ensures { result ≡ types_ranged (decoded c.now) }
{
    declared::all_types(c) && declared::modules_once(c, marks)
}

fn declarations_ranged(c: &code::Slots) -> bool
    ensures { result ≡ declarations_ranged (decoded c.now) }
{
    1 <= code::blocks(c) && declared::all_vars(c) && blocks::all_blocks(c)
}

fn operands_ranged(c: &code::Slots, types: &[u16]) -> bool
    requires { Types (decoded c.now) types.now }
    ensures { result ≡ operands_ranged (decoded c.now) }
{
    operands::all_args(c) && operands::all_nodes(c, types) && operands::all_stmts(c)
}

// Whether the table escapes refusal 4. `types` holds the types of its nodes; `marks` are 0, one for each block at least.
pub fn in_range(c: &code::Slots, types: &[u16], marks: &mut [u8]) -> bool
    requires types { Types (decoded c.now) types.now }
    requires clear { Clear (decoded c.now) marks.old }
    ensures { result ≡ in_range (decoded c.now) }
{
    in_order(c) && types_ranged(c, marks) && declarations_ranged(c) && operands_ranged(c, types)
}
