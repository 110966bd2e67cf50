// The 16-bit words of Joyce: words in bytes, values, operators, standard types and device addresses.
#![tactic(auto)]

pub mod devices;
pub mod memory;
pub mod numbers;
pub mod operators;
pub mod types;
pub mod values;
