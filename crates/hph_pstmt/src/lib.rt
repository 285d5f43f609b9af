//! Statements from tokens (PHP manual, Control Structures).
//!
//! Each function does what one of the functions on lists of tokens does, over a parser of expressions of the caller's.
#![tactic(auto)]

mod branches;
mod control;
mod loops;
mod statement;
mod switch;

pub use statement::file_statement;
