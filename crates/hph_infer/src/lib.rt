//! The inference of types: workers in threads raise the cells of a system until nothing is pending, and a sweep on one
//! thread raises what they left.
//!
//! `infer` gives the least typing in every schedule of its threads, for any system and any budget of turns.
#![tactic(auto)]

mod least;
mod rounds;
mod threads;
mod turns;

pub use least::{Inferred, infer};
pub use rounds::sweep;
pub use turns::{Left, Report, work};
