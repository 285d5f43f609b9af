//! Statements that hold no statements, and the heads of `foreach` and labels of `switch`, from tokens (PHP manual, Control
//! Structures).
//!
//! Each function does what one of the functions on lists of tokens does, over a parser of expressions of the caller's.
#![tactic(auto)]

pub mod cases;
pub mod foreach;
pub mod simple;
