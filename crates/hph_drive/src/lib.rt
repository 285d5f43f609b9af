//! What the program does with the words of its command line: the top call `hphpc`, its answers and their causes.
//!
//! The clauses of `hphpc` are the promise to its users: each answer comes exactly by its cause (specs/Answers), and
//! what was written where the answer is `Built` does what the source says (specs/Headline of hph_compile).
#![tactic(auto)]

mod build;
mod command;
mod fault;
mod names;
mod refusal;
mod status;
mod words;

pub use command::hphpc;
pub use status::Status;
