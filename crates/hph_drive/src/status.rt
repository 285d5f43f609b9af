ghost use Rattle.std.specs.Prelude.{◌≡◌, IfOk};
ghost use Rattle.std.specs.Cow.{cow_str_bytes};
ghost use Rattle.hph_drive.specs.Lines.{line_of, number_of};

use crate::refusal::{refusal_text, spot_text};
use hph_ast::{Refusal, Spot};
use std::alloc::{AllocError, Global};
use std::borrow::CowStr;

/// How a command ends.
#[derive(Drop)]
pub enum Status {
    /// The module was written.
    Built,
    /// The words are none that the program takes.
    Usage,
    /// The program has a fault.
    Refused(Refusal),
    /// The program has no fault, and the node that begins there can't be compiled yet.
    Unlowered(Spot),
    /// A file could not be read.
    ReadFault,
    /// The module could not be written.
    WriteFault,
    /// Memory ran out.
    NoMemory,
}

impl Status {
    /// The number that the program ends with.
    pub fn number(&self) -> u8
        ensures { result ≡ number_of self.now }
    {
        match self {
            Status::Built => 0,
            Status::Usage => 121,
            Status::Refused(_) | Status::Unlowered(_) => 122,
            Status::ReadFault => 124,
            Status::WriteFault => 125,
            Status::NoMemory => 126,
        }
    }

    /// The line that is written to standard error, none where the module was built. Only those of refusals take memory.
    pub fn line(&self, alloc: Global) -> Result<CowStr<'static>, AllocError>
        ensures { IfOk result (λ line. cow_str_bytes line ≡ line_of self.now) }
    {
        let line = match self {
            Status::Built => "",
            Status::Usage => "usage: hphpc build MAIN\n",
            Status::Refused(refusal) => {
                let text = refusal_text(alloc, refusal)?;
                return Ok(CowStr::Owned(format!(in alloc; "{text}\n")?));
            }
            Status::Unlowered(spot) => {
                let text = spot_text(alloc, spot, "unlowered")?;
                return Ok(CowStr::Owned(format!(in alloc; "{text}\n")?));
            }
            Status::ReadFault => "read fault\n",
            Status::WriteFault => "write fault\n",
            Status::NoMemory => "no memory\n",
        };
        Ok(CowStr::Borrowed(line))
    }
}
