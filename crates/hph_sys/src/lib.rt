//! Systems of typing rules: scopes that ask types of cells, their solutions and their least typing.
//!
//! `System` is what the inference of types works on. Its laws are the trait's own (specs/Lawful.antt), so every system
//! keeps them. The least typing is defined as the meet of all solutions, with no order of work in it (specs/Least.antt);
//! the functions of `laws` show that it is a solution, and the only one of its kind.
#![tactic(auto)]

pub mod examples;
pub mod laws;
mod system;

pub use system::System;
