//! The files that a file includes: the literals of its includes, in order of text, and the paths that they name.
//!
//! `included` gives the paths, normalised and taken against the folder of the file (PHP manual, include). Includes stand where
//! they are accepted: as whole statements outside functions and classes.
#![tactic(auto)]

mod literals;
mod paths;

pub use paths::included;
