//! Tests of equality. Nothing stands on this crate.
#![tactic(auto)]

#[cfg(test)]
mod tests;
