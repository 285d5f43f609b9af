//! The operators on integers of 32 and of 64 bits that WebAssembly has (Core Specification 1.0, 4.3.2).
//!
//! Each call gives what its definition in hph_wasm does. None is an undefined result, at which the instruction traps.
#![tactic(auto)]

mod access;
mod wide;
mod word;

pub use access::{Access, load, store};
pub use wide::{binary_i64, comparison_i64, extended_i64, unary_i64};
pub use word::{binary_i32, comparison_i32, extended_i32, unary_i32, wrapped_i32};
