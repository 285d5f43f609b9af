//! Tests of the functions that are built in. Nothing stands on this crate.
#![tactic(auto)]

#[cfg(test)]
mod answers;
#[cfg(test)]
mod arguments;
#[cfg(test)]
mod prints;
#[cfg(test)]
mod stops;
