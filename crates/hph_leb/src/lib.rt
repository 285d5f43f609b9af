//! Integers in LEB128, as WebAssembly modules spell them (Core Specification 1.0, 5.2.2).
//!
//! `put_` functions append the shortest spelling of a number, and `get_` functions read the number that is spelled at a
//! place. What a spelling is, the library of modules defines: `Unsigned` and `Signed` are the standard's grammar. The
//! laws in src/laws.rt say that the shortest spellings are, and that what is written is read.
#![tactic(auto)]

mod laws;
mod signed;
mod unsigned;

pub use laws::{
    i32_bytes_are_shortest, i64_bytes_are_shortest, one_number, u32_bytes_are_shortest,
    written_numbers_are_read,
};
pub use signed::{get_i32, get_i64, put_i32, put_i64};
pub use unsigned::{get_u32, put_u32};
