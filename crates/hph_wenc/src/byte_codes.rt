//! The bytes that the binary format gives a meaning of their own, in the order of the Core Specification 1.0. Those of
//! instructions are opcodes.

// Value types (5.3.1).
pub const I32: u8 = 0x7F;

pub const I64: u8 = 0x7E;

// Blocks with no result (5.3.2).
pub const NO_RESULT: u8 = 0x40;

// Function types (5.3.3).
pub const FUNC_TYPE: u8 = 0x60;

// Limits (5.3.4).
pub const MIN_ALONE: u8 = 0x00;

pub const MIN_AND_MAX: u8 = 0x01;

// What a table holds: functions (5.3.6).
pub const FUNC_REF: u8 = 0x70;

// Globals (5.3.7).
pub const CONST: u8 = 0x00;

pub const VAR: u8 = 0x01;

// What stands before the second branch of an `if`, and at the end of a block and of an expression (5.4.1, 5.4.6).
pub const ELSE: u8 = 0x05;

pub const END: u8 = 0x0B;

// The table of an indirect call, which is the only one (5.4.1).
pub const ONLY_TABLE: u8 = 0x00;

// Imports and exports (5.5.5, 5.5.10).
pub const FUNC: u8 = 0x00;

pub const TABLE: u8 = 0x01;

pub const MEMORY: u8 = 0x02;

pub const GLOBAL: u8 = 0x03;
