//! Whether WebAssembly modules are valid (Core Specification 1.0, section 3).
//!
//! The one contract is that of `valid`: a module is accepted exactly where `IsValid` of hph_wasm holds of it, and otherwise the
//! place of its first fault is given. Code is checked in one pass, with a stack of kinds and one of labels: specs/Checking has it
//! as a function, and specs/Kinds what its verdict tells.
#![tactic(auto)]

mod body;
mod control;
mod functions;
mod memory;
mod numeric;
mod operands;
mod outside;
mod plain;
mod scope;
mod spaces;
mod stack;
mod validator;
mod variables;

pub use validator::{ValidFault, decide, valid};
