//! What the code of a program goes by, told by folds over its trees: the literals, each once with its place in memory, and the slots
//! of variables. `plan_of` of specs/Plan is what the lowering is given. Laws say what a plan is worth; no code makes one yet.
#![tactic(auto)]

mod laws;

pub use laws::{lists_once, literals_have_places, names_have_slots};
