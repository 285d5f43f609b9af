//! Why a module, or a part of one, was not read.
ghost use Rattle.std.specs.Prelude.{◌≡◌};
ghost use Rattle.hph_wread.specs.declared.fault.Fault.TheVariants.{NoMemory};

use hph_wasm::Feature;
use std::alloc::{AllocError, AllocFailed};

/// Why a part of a module was not read. A place is told by the number of bytes that are left from it on.
#[derive(Clone, Copy, Debug, PartialEq, Eq)]
pub enum Fault {
    Malformed(usize),
    Unsupported(usize, Feature),
    NoMemory,
}

impl From<AllocError> for Fault {
    ghost from_gives = { λ _ e. e ≡ NoMemory };

    fn from(_e: AllocError) -> Fault {
        Fault::NoMemory
    }
}

impl<T: Drop> From<AllocFailed<T>> for Fault {
    ghost from_gives = { λ _ e. e ≡ NoMemory };

    fn from(_e: AllocFailed<T>) -> Fault {
        Fault::NoMemory
    }
}
