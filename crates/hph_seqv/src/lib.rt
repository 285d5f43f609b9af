//! What it is that the code of a module does what a part of a program means, and how code that does is put together.
//!
//! specs/Simulates has the relation: what is known of a module, what stands around code (of which nothing is assumed), how the state of
//! a host and that of a program fit, and the promise of code, `Runs`. The lemmas in proofs/ are one for each way of putting code
//! together, one for all calls of rows, and one for each row of values and variables. Laws stand as contracts in src/laws.rt.
#![tactic(auto)]

mod laws;

pub use laws::{choices_choose, code_joins, rows_reply};
