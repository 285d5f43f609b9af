//! One file, from its bytes to its tokens and their tree, or its first fault.
//!
//! `front` puts the lexer, the parser and the search for refused constructs together, in the order in which faults count. The
//! laws in src/laws.rt say that a file has one tree or one first fault, and never both.
#![tactic(auto)]

mod fault;
mod laws;
mod reading;

pub use fault::FileFault;
pub use laws::{one_first_fault, one_tree};
pub use reading::{Parsed, front, read};
