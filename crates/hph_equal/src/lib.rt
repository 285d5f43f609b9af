//! Equality of values in code (PHP manual, Comparison Operators): `==` and `===`. Each call answers exactly what the
//! definition in hph_php gives for the values that its operands are, or that there is no memory. Arrays in one another are
//! gone through with a list of those that are entered, not by calls, so however deep they are no stack runs out.
#![tactic(auto)]

mod apart;
mod equal;
mod frame;

pub use apart::array_in;
pub use equal::{loose_eq, strict_eq};
