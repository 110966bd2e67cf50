// The operators by name (01, The table). Numbers, as the kinds are.

// Of one operand.
pub const MINUS: usize = 1;

pub const NOT: usize = 2;

pub const VAL: usize = 3;

// Of two: comparisons, then those of integers, then those of integers and booleans.
pub const EQUAL: usize = 1;

pub const NOT_EQUAL: usize = 2;

pub const LESS: usize = 3;

pub const NOT_GREATER: usize = 4;

pub const GREATER: usize = 5;

pub const NOT_LESS: usize = 6;

pub const ADD: usize = 7;

pub const SUBTRACT: usize = 8;

pub const MULTIPLY: usize = 9;

pub const DIVIDE: usize = 10;

pub const MODULUS: usize = 11;

pub const AND: usize = 12;

pub const OR: usize = 13;
