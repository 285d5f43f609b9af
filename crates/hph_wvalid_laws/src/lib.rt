//! Laws of what is decided of WebAssembly modules (Core Specification 1.0, sections 3 and 4.5.4): a module that isn't valid has a first
//! fault, and one that doesn't run on a host has a first obstacle.
//!
//! hph_wasm has the laws that there is one of each at most, and none where all is well. That there is a fault is told by the check
//! of hph_wvalid, which is a function that gives a verdict on every body. specs/Decided has the statements.
#![tactic(auto)]

mod laws;

pub use laws::{
    invalid_bodies_have_a_first_fault, invalid_modules_have_a_first_fault,
    modules_run_or_have_a_first_obstacle, outside_code_is_decided,
};
