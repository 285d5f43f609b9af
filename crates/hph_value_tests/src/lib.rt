//! Tests of values and operators. Nothing stands on this crate.
#![tactic(auto)]

#[cfg(test)]
mod tests;
