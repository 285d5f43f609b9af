//! Modules as bytes: tests that cross the crates which read them.
#![tactic(auto)]

#[cfg(test)]
mod expressions;
#[cfg(test)]
mod modules;
