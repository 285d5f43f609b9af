//! The state of a host that serves a program: its operand stack, what it holds, and how its functions take items off and go on.
//!
//! A state is seen as that of hph_effects by `seen`, beside the output, which the host keeps. A call that takes an item or gives
//! one has the equation of a combinator of hph_effects as its contract, for every way of going on.
#![tactic(auto)]

mod item;
mod state;

pub use item::{Held, Item, Turns};
pub use state::{Answer, MISUSE, State};
