//! The functions that a module imports from `php1`: what each does to a host.
//!
//! specs/ has a host's state and the effect of each row as definitions: a new state with a result, or the end of the run with
//! what was printed then. A row is the function that the run of a program has for the same step, so that a host's core is the
//! program's. Rust has the rows as an enum. Laws of the effects are in `hph_effect_laws`.
#![tactic(auto)]

mod row;

pub use row::Row;
