//! Functions and classes from tokens, and lists of statements in braces (PHP manual, Functions, Classes and Objects).
//!
//! What reads a statement in a statement is a parameter, so that these rules are proved before those of the statements. Each
//! function does what one of the functions on lists of tokens does.
#![tactic(auto)]

mod classes;
mod functions;
mod grammar;

pub use grammar::Grammar;
