//! Why a source file has no module.
ghost use Rattle.std.specs.Prelude.{◌≡◌};
ghost use Rattle.hph_compile.specs.Sources.{fault_of_file, fault_of_texts};
ghost use Rattle.hph_compile.specs.declared.fault.SourceFault.TheVariants.{NoMemory};

use hph_ast::{Construct, LexKind};
use hph_file::FileFault;
use hph_text::TextsFault;
use std::alloc::AllocError;

/// Why a source file has no module. Offsets count bytes from 0.
#[derive(Clone, Copy, PartialEq, Eq)]
pub enum SourceFault {
    Lex { kind: LexKind, offset: u32 },
    Construct { kind: Construct, offset: u32 },
    TooDeep { offset: u32 },
    Syntax { offset: u32 },
    /// The node that begins there can't be compiled yet.
    Unlowered { offset: u32 },
    NoMemory,
}

impl From<FileFault> for SourceFault {
    ghost from_gives = { λ fault given. given ≡ fault_of_file fault };

    fn from(fault: FileFault) -> SourceFault {
        match fault {
            FileFault::Lex { kind, offset } => SourceFault::Lex { kind, offset },
            FileFault::Construct { kind, offset } => SourceFault::Construct { kind, offset },
            FileFault::TooDeep { offset } => SourceFault::TooDeep { offset },
            FileFault::Syntax { offset } => SourceFault::Syntax { offset },
            FileFault::NoMemory => SourceFault::NoMemory,
        }
    }
}

impl From<TextsFault> for SourceFault {
    ghost from_gives = { λ fault given. given ≡ fault_of_texts fault };

    fn from(fault: TextsFault) -> SourceFault {
        match fault {
            TextsFault::Unlowered(offset) => SourceFault::Unlowered { offset },
            TextsFault::NoMemory => SourceFault::NoMemory,
        }
    }
}

impl From<AllocError> for SourceFault {
    ghost from_gives = { λ _ fault. fault ≡ NoMemory };

    fn from(_error: AllocError) -> SourceFault {
        SourceFault::NoMemory
    }
}
