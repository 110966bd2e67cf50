// Values in a lent state: the words at a location hold one of a type; a part of a variable begins at a word. What is found of the types once
// a call serves both.
#![tactic(auto)]

pub mod lent; // the words of a state
pub mod heads; // what the words of each type must hold
pub mod holding; // values
pub mod jumps; // chains of only parts
pub mod beginning; // parts of variables
