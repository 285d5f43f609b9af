//! Why there is no program.
ghost use Rattle.std.specs.Prelude.{◌≡◌};
ghost use Rattle.hph_include.specs.declared.fault.FrontFault.TheVariants.{NoMemory};

use hph_ast::Refusal;
use std::alloc::{AllocError, AllocFailed};

/// Why a source tree has no program from a main file on.
#[derive(Drop)]
pub enum FrontFault {
    /// Its first fault, with the paths of the files.
    Refused(Refusal),
    /// A file could not be read.
    ReadFault,
    NoMemory,
}

impl From<AllocError> for FrontFault {
    ghost from_gives = { λ _ fault. fault ≡ NoMemory };

    fn from(_error: AllocError) -> FrontFault {
        FrontFault::NoMemory
    }
}

impl<T: Drop> From<AllocFailed<T>> for FrontFault {
    ghost from_gives = { λ _ fault. fault ≡ NoMemory };

    fn from(_error: AllocFailed<T>) -> FrontFault {
        FrontFault::NoMemory
    }
}
