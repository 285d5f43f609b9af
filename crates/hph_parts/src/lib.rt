//! What statements are made of, from tokens: keywords, names, values of constants, lists with commas between; where statements
//! stand, and where lists of them end (PHP manual, Control Structures, Functions, Classes and Objects).
//!
//! Each function does what one of the functions on lists of tokens does, over a parser of expressions of the caller's.
#![tactic(auto)]

pub mod boxes;
pub mod ends;
mod expressions;
pub mod lists;
mod parts;
pub mod places;
pub mod words;

pub use expressions::Expressions;
pub use parts::Parts;
