//! From the bytes of a file to its tokens (PHP manual, Basic syntax and Strings).
//!
//! `tokens` gives the tokens that the bytes spell, or the first place where they spell none and why. It meets `Lexes` of the
//! lexical grammar, and the laws in src/laws.rt say that the grammar leaves no choice and has an answer for each file.
#![tactic(auto)]

mod bytes;
mod cast;
mod code;
mod ending;
mod fault;
mod file;
mod found;
mod inline;
mod interpolation;
mod key;
mod laws;
mod mark;
mod name;
mod number;
mod place;
mod reader;
mod spelled;
mod start;
mod string;
mod word;

pub use fault::LexFault;
pub use file::tokens;
pub use laws::{every_file_is_read, first_mark_is_longest, one_reading};
