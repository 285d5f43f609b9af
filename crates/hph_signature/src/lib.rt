//! What stands before the bodies of functions and before the members of classes, from tokens: declared types, parameters,
//! modifiers (PHP manual, Type declarations, Function parameters and arguments, Visibility, Static Keyword).
//!
//! Each function does what one of the functions on lists of tokens does, over a parser of expressions of the caller's.
#![tactic(auto)]

pub mod modifiers;
pub mod params;
pub mod types;
