//! What stands in an expression without operators, from tokens: primaries, their steps, calls and members
//! (PHP manual, Variables, Functions, Classes and Objects).
//!
//! Each function does what one of the functions on lists of tokens does, with what is nested one deeper as a parameter.
#![tactic(auto)]

mod chains;
mod members;
mod postfix;
mod primaries;

pub use chains::Chains;
pub use hph_enclosed::PathTest;
pub use primaries::array_of;
