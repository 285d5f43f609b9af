//! The answer for a source file that has no module.
ghost use Rattle.std.specs.Prelude.{◌≡◌};
ghost use Rattle.hph_drive.specs.Sources as spec;

use crate::Status;
use hph_ast::{Refusal, Spot};
use hph_compile::SourceFault;

/// The answer for a file of this path that has this fault.
pub fn status_of(fault: SourceFault, file: String) -> Status
    ensures { result ≡ spec.status_of fault file }
{
    match fault {
        SourceFault::Lex { kind, offset } => Status::Refused(Refusal::Lex {
            kind,
            spot: Spot { file, offset },
        }),
        SourceFault::Construct { kind, offset } => Status::Refused(Refusal::Construct {
            kind,
            spot: Spot { file, offset },
        }),
        SourceFault::TooDeep { offset } => Status::Refused(Refusal::TooDeep {
            spot: Spot { file, offset },
        }),
        SourceFault::Syntax { offset } => Status::Refused(Refusal::Syntax {
            spot: Spot { file, offset },
        }),
        SourceFault::Unlowered { offset } => Status::Unlowered(Spot { file, offset }),
        SourceFault::NoMemory => Status::NoMemory,
    }
}
