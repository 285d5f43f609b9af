//! Binary operators on values in code, by their codes (PHP manual, Operators). Each call answers exactly what the definition
//! in hph_php gives for the values that its operands are, or that there is no memory.
#![tactic(auto)]

mod answers;
mod operators;

pub use operators::binary;
