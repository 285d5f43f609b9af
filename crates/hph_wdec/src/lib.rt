//! Reads WebAssembly modules from bytes, in the binary format of the Core Specification 1.0 (section 5.5).
//!
//! Its one contract is that of `read`: a module exactly where the bytes spell it and nothing that is left out stands in them, the
//! place of what is left out where something is, and else that the bytes are malformed. Parts of modules are read by `hph_wread`.
#![tactic(auto)]

mod code;
mod entries;
mod forms;
mod functions;
mod kinds;
mod locals;
mod module;
mod module_fault;
mod sections;
mod segments;
mod sized;

pub use module::{read, read_written};
pub use module_fault::ModuleFault;
