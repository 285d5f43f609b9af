//! Tables of cases: opcodes, operators, imports, built-in functions and kinds of fatal errors, each by a code.
//!
//! Each table is a list of rows in specs/, and its function gives exactly that list, so that a writer, a reader and a
//! host cite one table. In a `Cases` no code stands twice (specs/Table.antt), so the look-ups from a code to its row and
//! back are inverse to each other. No call takes memory.
#![tactic(auto)]

mod builtin_table;
mod cases;
mod fatal_table;
mod import_table;
mod opcode_table;
mod operator_table;

pub use builtin_table::builtins;
pub use cases::{Cases, Row};
pub use fatal_table::fatals;
pub use import_table::imports;
pub use opcode_table::opcodes;
pub use operator_table::operators;
