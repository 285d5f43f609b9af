//! The program of a source tree: the main file, and the files that its files include, wave by wave.
//!
//! `sources` reads the files in the order in which faults count, and has the files of a wave lexed and parsed side by side. What it
//! gives is what `hph_program` defines, or the first fault (specs/Faults).
#![tactic(auto)]

mod fault;
mod parsing;
mod reading;
mod source;

pub use fault::FrontFault;
pub use parsing::parse_all;
pub use reading::read_all;
pub use source::Source;
