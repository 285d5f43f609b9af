//! A host of one function, `php1.write`, which prints to a sink: for tests of modules that print and do nothing else.
//!
//! specs/Writing has it as a definition. Where the sink tells what it holds, that is what was printed.
#![tactic(auto)]

mod write_host;

pub use write_host::WriteHost;
