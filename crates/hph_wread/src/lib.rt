//! Reads parts of WebAssembly modules from bytes, in the binary format of the Core Specification 1.0 (section 5).
//!
//! Its one contract is that of every reader here: the part that stands at the head of the bytes with what is behind it, or else
//! where something that is left out begins, or that no such part stands there.
#![tactic(auto)]

mod blocks;
mod exports;
mod fault;
mod forms;
mod function_types;
mod imports;
mod kinds;
mod limits;
mod names;
mod nest;
mod numbers;
mod opcodes;
mod part;
mod plain;
mod types;

pub use blocks::expression;
pub use exports::export;
pub use fault::Fault;
pub use limits::{global_type, memory_type, table_type};
pub use names::{counted_bytes, name};
pub use numbers::{first_byte, fixed_byte, unsigned};
pub use part::{Part, vector};
pub use types::value_type;
