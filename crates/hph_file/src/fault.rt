//! Why a file has no tree.
use hph_ast::{Construct, LexKind};

/// Why a file has no tree that can be compiled: its first fault, by the order of the tests. Offsets count bytes from 0.
#[derive(Clone, Copy, PartialEq, Eq)]
pub enum FileFault {
    /// No token begins there.
    Lex { kind: LexKind, offset: u32 },
    /// A construct begins there that is refused.
    Construct { kind: Construct, offset: u32 },
    /// The first token at which more than 256 brackets are open.
    TooDeep { offset: u32 },
    /// The tokens spell no tree, or one that is nested deeper than 512. The token there, or the one before it, cannot follow.
    Syntax { offset: u32 },
    NoMemory,
}
