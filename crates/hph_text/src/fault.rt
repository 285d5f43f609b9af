//! Why there are no texts.
ghost use Rattle.std.specs.Prelude.{◌≡◌};
ghost use Rattle.hph_text.specs.declared.fault.TextsFault.TheVariants.{NoMemory};

use std::alloc::{AllocError, AllocFailed};

/// Why there are no texts.
#[derive(Clone, Copy, Debug, PartialEq, Eq)]
pub enum TextsFault {
    /// The node that starts at this offset has none of its own.
    Unlowered(u32),
    NoMemory,
}

impl From<AllocError> for TextsFault {
    ghost from_gives = { λ _ e. e ≡ NoMemory };

    fn from(_e: AllocError) -> TextsFault {
        TextsFault::NoMemory
    }
}

impl<T: Drop> From<AllocFailed<T>> for TextsFault {
    ghost from_gives = { λ _ e. e ≡ NoMemory };

    fn from(_e: AllocFailed<T>) -> TextsFault {
        TextsFault::NoMemory
    }
}
