//! The machine of the workers as code: one event at a time, on a state that meets the machine's rule.
//!
//! `machine::step` takes an event. Where the event isn't enabled it says so, and the state stays as it was; else the
//! state and the answer are what specs/Events.antt of `hph_core` says. `conditions` decides, from the system, the
//! cells and the entry of the seat that acts, where events are enabled. `entries` makes of an entry what each event
//! does, and `state` does so with the words. Where there is no memory, all stay as they were.
#![tactic(auto)]

pub mod conditions;
pub mod entries;
mod lists;
pub mod machine;
pub mod state;
