//! Why a file has no tokens.
ghost use Rattle.std.specs.Prelude.{◌≡◌};
ghost use Rattle.hph_lex.specs.declared.fault.LexFault.TheVariants.{NoMemory};

use hph_ast::{Construct, LexKind};
use std::alloc::AllocError;

/// Why a file has no tokens. An offset counts bytes from 0.
#[derive(Clone, Copy, PartialEq, Eq)]
pub enum LexFault {
    /// No token begins there.
    Bad(LexKind, u32),
    /// A construct begins there that is refused.
    Refused(Construct, u32),
    NoMemory,
}

impl From<AllocError> for LexFault {
    ghost from_gives = { λ _ error. error ≡ NoMemory };

    fn from(_error: AllocError) -> LexFault {
        LexFault::NoMemory
    }
}
