//! Tests of byte strings, keys and arrays. Nothing stands on this crate.
#![tactic(auto)]

#[cfg(test)]
mod nested;
#[cfg(test)]
mod sequences;
#[cfg(test)]
mod steps;
#[cfg(test)]
mod tests;
