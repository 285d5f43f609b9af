//! Laws of the effects of imports: what each row takes and gives, what it leaves alone, and what the host as a whole keeps.
//!
//! Each is the contract of a function without a body, or of one that cites a law of `hph_wasm`, so that crates above can cite it.
#![tactic(auto)]

mod laws;

pub use laws::{
    Php1, calls_count_arguments, calls_leave_what_lies_below, effects_take_their_parameters,
    host_keeps_its_types, host_never_takes_back, host_stays_halted, php1_both_directions,
    php1_never_stuck, php1_runs, rows_are_imported,
};
