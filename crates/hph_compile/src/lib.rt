//! One source file, from its bytes to the bytes of its module.
//!
//! The contract of `compiled` is the compiler theorem (specs/Headline), or says why the file has no module (specs/Sources).
#![tactic(auto)]

mod fault;
mod module;

pub use fault::SourceFault;
pub use module::compiled;
