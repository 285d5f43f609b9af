//! Functions that are built in, on values in code (PHP manual, Function Reference). `call` prints and answers exactly what the
//! definition in hph_php gives for the values that its arguments are, or says that there is no memory or that the sink failed.
#![tactic(auto)]

mod arguments;
mod arrays;
mod calls;
mod counts;
mod kinds;
mod numbers;
mod plain;
mod strings;

pub use calls::call;
pub use hph_builtin_dump::HostStop;
