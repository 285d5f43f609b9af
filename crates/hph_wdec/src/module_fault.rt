//! Why no module was read.
use hph_wasm::Feature;

/// Why bytes were not read as a module. Offsets count bytes from the first one.
#[derive(Clone, Copy, Debug, PartialEq, Eq)]
pub enum ModuleFault {
    /// The bytes are outside the binary format; the reader stopped at this offset.
    Malformed(u32),
    /// At this offset begins something that the Core Specification 1.0 has and modules may not, and all before it was read.
    Unsupported(u32, Feature),
    NoMemory,
}
