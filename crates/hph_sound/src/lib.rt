//! What holds of each state of a run: `IsSound` of `hph_php` holds at the start, and printing, places, variables, constants, entered
//! files and declared functions keep it. That classes, objects and calls keep it isn't shown here.
#![tactic(auto)]

mod laws;

pub use laws::{rules_keep_soundness, start_is_sound};
