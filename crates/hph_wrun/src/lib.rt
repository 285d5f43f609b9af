//! What is said of a whole run of a module: the place of the instruction at which a machine stands, by the function and by the
//! number of opcodes before it.
#![tactic(auto)]

mod counting;
mod place;

pub use counting::opcode_count;
pub use place::{Place, place_of};
