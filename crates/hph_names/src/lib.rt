//! Names that were met, and whether one of them comes again (PHP manual, Classes and Objects, and User-defined functions).
//!
//! A name is looked up in a set, so a name more costs the same however many were met. The set takes memory; where that
//! runs out, nothing is answered any more.
#![tactic(auto)]

mod met;

pub use met::{Case, MetNames};
