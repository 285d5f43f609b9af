//! The single reductions of a machine that runs the functions of a WebAssembly module (Core Specification 1.0, section 4.4).
#![tactic(auto)]

mod calls;
mod control;
mod memory;
mod next;
mod numeric;
mod program;
mod reduction;
mod variables;

pub use calls::enter;
pub use control::{behind_call, branch};
pub use next::Next;
pub use program::{Callee, HostFunction, OwnFunction, Program};
pub use reduction::step;
