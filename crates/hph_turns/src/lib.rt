//! A turn of a worker at the shared table.
//!
//! In a turn a worker takes a scope of the work set, holds all that the scope looks at, reads the cells of these scopes,
//! raises cells until all that the scope asks is met, and then is done with it and releases what it held. Where another
//! worker holds one of them it releases what it held and puts the scope back. Where it sees no scope in the set it reads
//! the number pending. Between turns a worker has no hand, holds nothing and owes nothing.
#![tactic(auto)]

mod cells;
mod hold;
mod raise;
mod turn;

pub use turn::{Turn, take_turn};
