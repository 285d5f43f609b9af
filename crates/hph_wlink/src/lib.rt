//! Linking: what a host has of the functions that a module imports, looked up once (Core Specification 1.0, 4.5.4).
//!
//! `link` gives the row of each import and the number of `main`, or the first import that the host doesn't have.
#![tactic(auto)]

mod entry;
mod linked;

pub use linked::{LinkFault, Linked, link};
