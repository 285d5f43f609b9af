//! What a module begins to run with: its globals, its memory and its table, as instantiation leaves them (Core Specification 1.0,
//! 4.5.4).
//!
//! `instantiate` gives them, or the first segment that doesn't end within its table or memory.
#![tactic(auto)]

mod constants;
mod instance;
mod misfits;
mod tables;

pub use instance::{Instance, InstanceFault, instantiate};
