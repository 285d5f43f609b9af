//! Whole runs of modules: linked, instantiated, and reduced from the call of `main` (Core Specification 1.0, 4.5.4 and 4.5.5).
#![tactic(auto)]

mod lookup;

pub use lookup::program;
