//! The types of PHP values, their order and the classes that they name.
//!
//! A type is a set of kinds and an object part. `leq` is their order, and `join` and `meet` are least upper and
//! greatest lower bounds in it; `code` gives each type a number of its own. Contracts are equations with specs/. What
//! the definitions there are worth stands in specs/Laws.antt, and the functions of `laws` show it.
//! Only `ClassTree::new` takes memory.
#![tactic(auto)]

mod bounds;
mod codes;
mod kind;
pub mod laws;
mod object;
mod sites;
mod tree;
mod ty;

pub use bounds::{join, leq, meet};
pub use codes::{code, of_code};
pub use kind::Kind;
pub use object::ObjPart;
pub use sites::SiteTypes;
pub use tree::ClassTree;
pub use ty::Ty;
