// The standard types and the kinds of entries by name (01, The table). Numbers and no enum: a table may hold any number as a kind, and the
// contracts are equations over every table.

// The standard types: their numbers, which come before those of the declared ones, and how many they are.
pub const INTEGER: usize = 0;

pub const BOOLEAN: usize = 1;

pub const CHARACTER: usize = 2;

pub const STANDARD: usize = 3;

// Types.
pub const RECORD: usize = 1;

pub const ARRAY: usize = 2;

pub const PROCESS: usize = 3;

// Modes of variables.
pub const LOCAL: usize = 0;

pub const VALUE_PARAMETER: usize = 1;

pub const VAR_PARAMETER: usize = 2;

// Blocks.
pub const PROGRAM: usize = 0;

pub const MODULE: usize = 1;

pub const PROCEDURE: usize = 2;

// Nodes.
pub const CONSTANT: usize = 0;

pub const WHOLE: usize = 1;

pub const FIELD: usize = 2;

pub const ELEMENT: usize = 3;

pub const VALUE: usize = 4;

pub const UNARY: usize = 5;

pub const BINARY: usize = 6;

pub const TRANSFER: usize = 7;

pub const STRING: usize = 8;

// Statements.
pub const SKIP: usize = 0;

pub const ASSIGN: usize = 1;

pub const LOCAL_CALL: usize = 2;

pub const PROCESS_CALL: usize = 3;

pub const CREATE: usize = 4;

pub const START: usize = 5;

pub const IF: usize = 6;

pub const WHILE: usize = 7;

pub const WHEN: usize = 8;

pub const CYCLE: usize = 9;

pub const ARM: usize = 10;

pub const END: usize = 11;

pub const WRITE: usize = 12;

pub const BLOCK_END: usize = 13;
