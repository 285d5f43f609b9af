//! The first construct of a file that is refused: one that a token tells, or one that the tree tells.
//!
//! Which constructs are refused, where, and in what order is defined in `hph_ast`; the two contracts here say that nothing
//! else is answered. Memory is taken for names alone, to tell those that stand twice; where there is none, they are
//! compared in pairs.
#![tactic(auto)]

mod classes;
mod context;
mod declarations;
mod earliest;
mod enclosing;
mod expressions;
mod names;
mod shapes;
mod statements;
mod tokens;

pub use statements::tree_construct;
pub use tokens::token_construct;
