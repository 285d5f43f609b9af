//! What a program reads, writes and waits at: a `Tree` of files, a `Sink` of bytes and a `Gate` at which a test may hold
//! a worker. The rules are this project's own, and the traits' clauses are its contract with its surroundings
//! (specs/Tree, specs/Sink): each answer says what was read or written, and a failure shows in a count that never falls.
//! Beside the traits stand trees and sinks in memory, ones that fail by a script, and ones over real files and streams.
#![tactic(auto)]

mod dir_tree;
mod gate;
mod memory;
mod script;
mod sink;
mod std_sink;
mod tree;

pub use dir_tree::DirTree;
pub use gate::{Gate, NoGate, Point};
pub use memory::{MemSink, MemTree};
pub use script::{ScriptSink, ScriptTree};
pub use sink::{PutAnswer, Sink};
pub use std_sink::StdSink;
pub use tree::{ReadAnswer, Tree};
