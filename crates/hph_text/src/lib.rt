//! What a file prints that is made of inline text, empty statements and `echo` of whole numbers and texts.
//!
//! The one contract is that of `texts`: the texts in order, or the first node that is none of these.
#![tactic(auto)]

mod fault;
mod file;

pub use fault::TextsFault;
pub use file::texts;
