//! What the grammar of statements repeats: nodes of a rule with commas between, or one behind the other.
//!
//! A rule is a trait, so that a loop over it is written and proved once, whatever it reads.
#![tactic(auto)]

mod commas;
mod lists;
mod rules;

pub use commas::separated;
pub use lists::{Ends, many};
pub use rules::Rule;
