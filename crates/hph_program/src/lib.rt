//! The program of a source tree: which files it has, in which order, and when it is well-formed.
//!
//! A program begins with its main file, and has each file that a file of it includes, in waves. Its definition stands in
//! specs/, over the grammars of `hph_ast` and the meaning of `hph_php`, which it ties together. The laws say that a
//! source tree has at most one program from a main file on, and that programs of one tree do the same.
#![tactic(auto)]

mod laws;

pub use laws::{contents_decide, one_program, sources_have_no_fault, waves_are_closed};
