// Procedure calls and the starting of processes (11.3, 11.5, 12, 13).
#![tactic(auto)]

pub mod arguments;
pub mod frame;
pub mod procedures;
pub mod processes;
