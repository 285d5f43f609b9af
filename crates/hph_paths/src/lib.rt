//! Paths of the files of a program: how they are normalised, which folder a file stands in, and which file the literal of
//! an include names. Paths are texts; files are the same where their normalised paths are.
#![tactic(auto)]

mod normalise;

pub use normalise::{folder, normalised};
