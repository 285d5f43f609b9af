//! The least typing of a system of typing rules, on one thread.
//!
//! All cells start as the empty type, and all scopes wait. A scope that waits is settled: each cell whose type isn't
//! above what the scope asks of it rises to the join of both, and the cell's readers wait from then on. A scope waits
//! again only after a cell that it reads has risen, so the number of turns is at most the number of scopes and, for each
//! rise of a cell, of the cell's readers. No cell rises more often than the height of the tree.
#![tactic(auto)]

mod waiting;
mod work_list;

pub use work_list::plain;
