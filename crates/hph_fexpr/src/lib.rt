//! The parser of expressions, as functions on lists of tokens (PHP manual, Expressions).
//!
//! specs/ has a file for each part of the grammar, with what is nested one deeper as a parameter. It reads what the
//! grammar of the library of trees says, and nothing else: the laws of src/laws.rt, which the parsers stand on.
#![tactic(auto)]

mod elements;
mod form;
mod laws;
mod turn;

pub use elements::Elements;
pub use form::Form;
pub use laws::{
    expressions_are_read, one_expression, one_expression_at, parser_is_complete, parser_is_sound,
    paths_are_read, targets_are_read,
};
pub use turn::Turn;
