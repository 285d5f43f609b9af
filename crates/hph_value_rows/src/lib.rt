//! The rows of values: literals, the top of the operand stack, operators and tests, steps of paths, elements of arrays, and what
//! is held. Each call serves as the definition of its row in hph_effects says.
#![tactic(auto)]

mod codes;
mod elements;
mod holds;
mod literals;
mod operators;

pub use elements::{elem, elem_key, step_append, step_key, step_prop};
pub use holds::{held, hold, iter, next, unhold};
pub use literals::{arr, bool, drop_item, dup, int, null, str};
pub use operators::{op1, op2, pop_bool, pop_int, truth};
