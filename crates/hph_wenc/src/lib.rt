//! Writes WebAssembly modules as bytes, in the binary format of the Core Specification 1.0 (section 5).
//!
//! Its one contract is that of `write`: the bytes are the module's `spelling`, as the library of modules defines it,
//! and they are one of those that its grammar, `SpellsModule`, allows. Numbers are the library `hph_leb`'s.
//! Inside, what adds bytes to an `out` may have added some of them where it ends in an error.
#![tactic(auto)]

mod byte_codes;
mod code;
mod data;
mod elements;
mod exports;
mod functions;
mod globals;
mod imports;
mod instructions;
mod laws;
mod locals;
mod memories;
mod module;
mod opcodes;
mod put;
mod tables;
mod types;

pub use laws::spellings_are_spelled;
pub use module::write;
