//! What more units change in the run of a PHP program, by the definitions of hph_php: nothing that has come. An answer stays,
//! a run that has ended stays ended, and what is printed and called only grows.
//!
//! The laws are the contracts of the functions in src/laws.rt. specs/Runs.antt has their statements for whole runs, and
//! specs/Growth.antt those for expressions, statements and all that a world runs.
#![tactic(auto)]

mod laws;

pub use laws::{
    calls_stay_and_grow, deeper_worlds_agree, expressions_keep_answers, no_unit_gives_nothing,
    runs_stay_and_grow, statements_keep_answers,
};
