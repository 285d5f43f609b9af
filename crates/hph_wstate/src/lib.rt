//! The state of a machine that runs the functions of a WebAssembly module: the instructions that are next, operands, blocks that
//! were entered, functions that wait, locals, memory and globals, and the configuration that all that stands for
//! (Core Specification 1.0, section 4.2).
#![tactic(auto)]

mod far;
mod layers;
mod locals;
mod machine;
mod pops;
mod zero;

pub use layers::{Caller, Entered, Side};
pub use locals::FrameLocals;
pub use machine::Machine;
pub use pops::{pop_i32, pop_i64};
