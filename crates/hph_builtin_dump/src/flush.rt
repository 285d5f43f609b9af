//! Bytes that wait in a buffer, and why a call that prints has no value.
ghost use Rattle.std.specs.Prelude.{◌≡◌, ◌≤◌, [], Err, OnOk};
ghost use Rattle.hph_src.specs.Faults.{HasRisen};
ghost use Rattle.hph_builtin_dump.specs.Prints.{Flushes};

use hph_php::Fatal;
use hph_src::{PutAnswer, Sink};
use hph_value::Stop;

/// Why a call that may print has no value.
#[derive(Clone, Copy, Debug, PartialEq, Eq)]
pub enum HostStop {
    /// A fatal error, which ends the program.
    Fatal(Fatal),
    /// There is no memory.
    NoMemory,
    /// The sink has failed, and has counted a fault.
    WriteFault,
}

impl From<Stop> for HostStop {
    ghost use Rattle.std.specs.Prelude.{◌≡◌};
    ghost use Rattle.hph_builtin_dump.specs.Prints.{host_stop};

    ghost from_gives = { λ stop host. host ≡ host_stop stop };

    fn from(stop: Stop) -> HostStop {
        match stop {
            Stop::Fatal(fatal) => HostStop::Fatal(fatal),
            Stop::NoMemory => HostStop::NoMemory,
        }
    }
}

/// How many bytes wait at least before they are written.
const LONG: usize = 1 << 16;

/// Writes what waits.
pub fn flush<O: Sink>(out: &mut O, buffer: &mut Vec<u8>) -> Result<(), HostStop>
    ensures flushed { Flushes result (O.content out.old) (O.content out.new) buffer.old.items buffer.new.items }
    ensures emptied { OnOk result (buffer.new.items ≡ []) }
    ensures never_falls { O.faults out.old ≤ O.faults out.new }
    ensures cause { result ≡ Err HostStop.WriteFault → HasRisen (O.faults out.old) (O.faults out.new) }
{
    match out.put(buffer.as_slice()) {
        PutAnswer::All => {
            buffer.clear();
            Ok(())
        }
        PutAnswer::Failed => Err(HostStop::WriteFault),
        PutAnswer::NoMemory => Err(HostStop::NoMemory),
    }
}

/// Writes what waits if it is long.
pub fn flush_long<O: Sink>(out: &mut O, buffer: &mut Vec<u8>) -> Result<(), HostStop>
    ensures flushed { Flushes result (O.content out.old) (O.content out.new) buffer.old.items buffer.new.items }
    ensures never_falls { O.faults out.old ≤ O.faults out.new }
    ensures cause { result ≡ Err HostStop.WriteFault → HasRisen (O.faults out.old) (O.faults out.new) }
{
    if buffer.len() < LONG {
        return Ok(());
    }
    flush(out, buffer)
}
