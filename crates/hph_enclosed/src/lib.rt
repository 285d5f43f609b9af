//! What stands between brackets, parentheses and quotes in an expression, and the names of members and classes, from tokens: arguments,
//! elements, paths, strings (PHP manual, Variables, Arrays, Strings, Functions, Classes and Objects).
//!
//! Each function does what one of the functions on lists of tokens does, with what is nested one deeper as a parameter.
#![tactic(auto)]

mod arrays;
mod grammar;
mod lists;
mod names;
mod path_test;
mod strings;
mod targets;

pub use grammar::Grammar;
pub use names::{named_by_variable, named_of};
pub use path_test::PathTest;
pub use strings::variable_of;
