//! Tests of trees: whether a file's or an expression's is nested no deeper than a limit, and whether an expression
//! is constant.
//!
//! Both are defined in `hph_ast`.
#![tactic(auto)]

mod constant;
mod fits;
mod nesting;

pub use constant::is_constant;
pub use fits::file_fits;
pub use nesting::expr_fits;
