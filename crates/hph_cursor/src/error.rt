ghost use Rattle.std.specs.Prelude.{◌≡◌};
ghost use Rattle.hph_cursor.specs.declared.error.ParseFault.TheVariants.{NoMemory};

use std::alloc::{AllocError, AllocFailed};

/// Why tokens are not read.
#[derive(Debug, Drop)]
pub enum ParseFault {
    /// The token at this place, counted from 0, or one before it, cannot follow.
    Syntax(usize),
    NoMemory,
}

impl From<AllocError> for ParseFault {
    ghost from_gives = { λ _ e. e ≡ NoMemory };

    fn from(_e: AllocError) -> ParseFault {
        ParseFault::NoMemory
    }
}

impl<T: Drop> From<AllocFailed<T>> for ParseFault {
    ghost from_gives = { λ _ e. e ≡ NoMemory };

    fn from(_e: AllocFailed<T>) -> ParseFault {
        ParseFault::NoMemory
    }
}
