//! Expressions from tokens (PHP manual, Expressions): operators, assignments and choices over what is read without operators.
//!
//! Each function does what one of the functions on lists of tokens does, with what is nested one deeper as a parameter.
#![tactic(auto)]

mod branches;
mod climb;
mod operators;
mod parser;
mod public;
mod terms;
mod written;

pub use parser::{nested, nested_elements, nested_paths, nested_source};
pub use public::expr;
