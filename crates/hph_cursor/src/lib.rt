//! What parsers of tokens share: a place in a list of tokens, what the tokens there tell, and the nodes of expressions.
//!
//! specs/ has the steps that parsers on lists of tokens are made of; a function here does one of them, or makes one node.
#![tactic(auto)]

mod cursor;
mod error;
mod kinds;
pub mod nodes;
mod places;
mod shapes;

pub use cursor::Cursor;
pub use error::ParseFault;
pub use kinds::{grouping, is_set, prefix_level};
pub use places::{class_place, on, place, span};
pub use shapes::{
    is_callable, is_class, is_class_expression, is_path, is_read, is_source, is_target, is_written,
    is_written_only,
};
