//! The paths of a program's files, wave by wave: which paths are known, and which are new.
//!
//! A path is looked up in a set, so a path more costs the same however many are known. The paths stand in the order in
//! which they became known, which is that of the program's files: a wave is what came behind those that were read.
#![tactic(auto)]

mod known;

pub use known::KnownPaths;
