// Statements that transfer values (11.2, 12.3) or references (11.4), and what a process variable refers to (5.2).
#![tactic(auto)]

pub mod assignments;
pub mod creations;
pub mod devices;
pub mod references;
