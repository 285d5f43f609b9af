//! What stands behind the steps of a path in a value (PHP manual, Arrays, Strings, isset, Null Coalescing Operator).
//!
//! A walk goes step by step, not by calls, and what it passes is only looked at: a value is copied at the end alone, where it
//! shares its bytes or pairs. Steps go by keys here, so each answer is that of the definition in every heap and class.
#![tactic(auto)]

mod bytes;
mod reading;
mod seen;
mod step;
mod testing;

pub use reading::read;
pub use step::Step;
pub use testing::read_if_set;
