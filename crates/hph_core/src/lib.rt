//! The machine of the workers: what they share, the events, and the rule that each event keeps.
//!
//! Workers look for the least typing of a system of scopes. Each has a seat, and what it does are events: it takes a
//! scope of the work set into its hand, holds the scopes that this one looks at, reads and raises cells, marks the
//! readers of what it raises, and drops its hand when all pairs are met. An event is one step on one word that the
//! workers share. specs/ says where each is enabled and what it leaves, as plain data; a table of atomic words, above
//! this crate, takes these steps from many threads. The functions of `laws` show what the rule is worth.
#![tactic(auto)]

mod event;
pub mod laws;
mod view;

pub use event::{Answer, Event, Hold};
pub use view::{Finding, Known, View};
