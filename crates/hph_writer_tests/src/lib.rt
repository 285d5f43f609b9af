//! Tests of the libraries that lay out modules and write them: each module stands in specs/Modules, and its bytes beside its test.
#![tactic(auto)]

#[cfg(test)]
mod layout;
#[cfg(test)]
mod writer;
