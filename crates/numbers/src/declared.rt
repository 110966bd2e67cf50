// Types, with the fields of records, and variables.
#![tactic(auto, using(crate::proofs::Rows::rows_tested, crate::proofs::Marks::marking), unfolding(basics::specs::Choice::both, basics::specs::Choice::between, crate::specs::Declarations::record_ranged, crate::specs::Declarations::field_below, crate::specs::Marking::module_marked))]

ghost use Rattle.std.specs.Prelude.{◌≡◌, ◌+◌, ◌<◌};
ghost use Rattle.basics.specs.Choice.{all_below};
ghost use Rattle.code.specs.Code.{decoded};
ghost use Rattle.table.specs.Entries.{type_q, type_count, var_count};
ghost use Rattle.numbers.specs.Sorts.{entry_ranged};
ghost use Rattle.numbers.specs.Declarations.{field_below, record_ranged, type_ranged, modules_once};
ghost use Rattle.numbers.specs.Tested.{array_ranged};
ghost use Rattle.numbers.specs.Marking.{Clear, ModuleMarks, module_marked};

use super::sorts;
use code::kinds;

// Each field of record x has a type with a lower number.
fn fields_below(c: &code::Slots, x: usize) -> bool
    ensures { result ≡ all_below (type_q (decoded c.now) x) (field_below (decoded c.now) x) }
{
    let p = code::type_p(c, x);
    (0..code::type_q(c, x)).all(|j| code::field_type(c, p + j) < x)
}

fn record_ranged(c: &code::Slots, x: usize) -> bool
    ensures { result ≡ record_ranged (decoded c.now) x }
{
    1 <= code::type_q(c, x) && fields_below(c, x)
}

fn array_ranged(c: &code::Slots, x: usize) -> bool
    ensures { result ≡ array_ranged (decoded c.now) x }
{
    code::type_p(c, x) <= kinds::CHARACTER && code::type_q(c, x) < x
}

// Type 3 + i.
fn type_ranged(c: &code::Slots, i: usize) -> bool
    requires { i < 65536 }
    ensures { result ≡ type_ranged (decoded c.now) i }
{
    let x = kinds::STANDARD + i;
    match code::type_kind(c, x) {
        kinds::RECORD => record_ranged(c, x),
        kinds::ARRAY => array_ranged(c, x),
        kinds::PROCESS => sorts::block_of(c, kinds::MODULE, code::type_p(c, x)),
        _ => true,
    }
}

pub fn all_types(c: &code::Slots) -> bool
    ensures { result ≡ all_below (type_count (decoded c.now)) (type_ranged (decoded c.now)) }
{
    (0..code::types(c)).all(|i| type_ranged(c, i))
}

pub fn all_vars(c: &code::Slots) -> bool
    ensures { result ≡ all_below (var_count (decoded c.now)) (entry_ranged (decoded c.now) 2) }
{
    let types = kinds::STANDARD + code::types(c);
    (0..code::variables(c)).all(|i| code::var_type(c, i) < types)
}

// Marks the module that type 3 + i names, where it is a process type.
fn mark_module(c: &code::Slots, i: usize, marks: &mut [u8])
    requires { i < 65536 }
    ensures { marks.new ≡ module_marked (decoded c.now) i marks.old }
{
    if code::type_kind(c, kinds::STANDARD + i) == kinds::PROCESS {
        basics::mark(marks, code::type_p(c, kinds::STANDARD + i));
    }
}

fn mark_modules(c: &code::Slots, marks: &mut [u8])
    requires { Clear (decoded c.now) marks.old }
    ensures { ModuleMarks (decoded c.now) (type_count (decoded c.now)) marks.new }
{
    for i in 0..code::types(c) {
        mark_module(c, i, marks);
    }
}

// Each block is marked once at most.
fn marked_once(c: &code::Slots, marks: &[u8]) -> bool
    requires { ModuleMarks (decoded c.now) (type_count (decoded c.now)) marks.now }
    ensures { result ≡ modules_once (decoded c.now) }
{
    (0..code::blocks(c)).all(|b| marks[b] <= 1)
}

// No two process types name the same block. The marks are 0 at first.
pub fn modules_once(c: &code::Slots, marks: &mut [u8]) -> bool
    requires { Clear (decoded c.now) marks.old }
    ensures { result ≡ modules_once (decoded c.now) }
{
    mark_modules(c, marks);
    marked_once(c, marks)
}
