//! Tests of the machine of the workers, and of the table that they share. Nothing stands on this crate.
#![tactic(auto)]

#[cfg(test)]
mod machine_tests;
#[cfg(test)]
mod rows;
#[cfg(test)]
mod table_tests;
