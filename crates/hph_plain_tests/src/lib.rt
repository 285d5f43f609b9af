//! Tests of the typing that is worked out, on systems worked by hand.
#![tactic(auto)]

mod chain;
#[cfg(test)]
mod tests;

pub use chain::Chain;
