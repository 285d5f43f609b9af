//! The module of a program: what a program means, and the WebAssembly module that does it.
//!
//! So far a program is the texts that its `echo` statements print, in order (specs/Program). The one contract is that of
//! `module`: its module is valid and runs as the program does, both ways (specs/Compiles), and can be written.
#![tactic(auto)]

mod layout;

pub use layout::module;
