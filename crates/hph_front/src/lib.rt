//! Source text through the lexer and the parsers: tests that cross them.
//!
//! What PHP groups otherwise than it seems is shown by trees printed with each operator in its own parentheses.
#![tactic(auto)]

#[cfg(test)]
mod constructs;
#[cfg(test)]
mod expressions;
#[cfg(test)]
mod files;
#[cfg(test)]
mod nesting;
#[cfg(test)]
mod operators;
#[cfg(test)]
mod printer;
#[cfg(test)]
mod statements;
