//! The parser of statements, functions, classes and files, as functions on lists of tokens (PHP manual, Control
//! Structures, Functions, Classes and Objects).
//!
//! specs/ has it over the parser of expressions. It reads what the grammar of the library of trees says, and nothing else:
//! the laws of src/laws.rt.
#![tactic(auto)]

mod laws;

pub use laws::{files_are_read, one_file, one_statement, statements_are_read};
