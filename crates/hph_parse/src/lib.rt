//! The tree of a file's tokens (PHP manual, Basic syntax).
//!
//! Here the parser of statements, which takes a parser of expressions as a parameter, gets the one of `hph_pexpr`.
#![tactic(auto)]

mod brackets;
mod deep;
mod error;
mod file;
mod parser;

pub use error::TreeFault;
pub use file::parse_with;
pub use parser::parse;
