// What the operands of a statement are found with: the operators on words (10), what is read of a state and of a table at a place (8),
// answers as one number, and the context of a statement (13). The table is lent decoded (code), with what is found once of it.
#![tactic(auto)]

pub mod operators;
pub mod packed;
pub mod places;

// What the next statement of a process is, and which variables it can name (13).
#[derive(Clone, Copy)]
pub struct Context {
    pub process: usize,
    pub statement: usize,
    pub block: usize,
    pub frame: usize,
    pub works: usize,
}
