//! What the built-in functions on arrays give (PHP manual, Array Functions, implode and explode). Each call answers exactly
//! what the definition in hph_php gives for the array that its pairs are, or that there is no memory. Each goes over the pairs
//! once, and values in values are compared without calls by depth.
#![tactic(auto)]

mod lists;
mod members;
mod texts;

pub use lists::{Side, exploded, list_of};
pub use members::{has_key, is_among};
pub use texts::imploded;
