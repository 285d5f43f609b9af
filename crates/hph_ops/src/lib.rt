//! Operators on values in code (PHP manual, Operators). Each call answers exactly what the definition in hph_php gives for
//! the values that its operands are.
#![tactic(auto)]

mod arrays;
mod casts;
mod moves;
mod numbers;
mod orders;
mod texts;
mod unions;

pub use arrays::{append, append_to, appends_along_a_path};
pub use casts::unary;
pub use moves::{decremented, incremented};
pub use numbers::{
    bit_and, bit_or, bit_xor, difference, negation, power, product, quotient, remainder,
    shift_left, shift_right, sum,
};
pub use orders::order;
pub use texts::{join_to, joined_onto};
pub use unions::union;
