//! What stands behind its size (Core Specification 1.0, 5.5.2 and 5.5.13).
ghost use Rattle.std.specs.Prelude.{◌≡◌, ◌++◌, [], length, take, MatchBool};
ghost use Rattle.hph_wdec.specs.Sized.{StandsIn, moved_by};

use hph_wread::Fault;

/// So many of these bytes, or all where they are fewer, and what stands behind them.
pub fn within(bytes: &[u8], size: u32) -> (&[u8], &[u8])
    ensures inside { result.0.now ≡ take size bytes.now }
    ensures whole { bytes.now ≡ result.0.now ++ result.1.now }
{
    let size = bytes.len().min(size as usize);
    (&bytes[..size], &bytes[size..])
}

/// Whether what was read of these bytes, with `after` behind it, is all of them, and as many as the size counts.
pub fn is_filled(size: u32, inside: &[u8], after: &[u8]) -> bool
    ensures { MatchBool result ((after.now ≡ []) × (length inside.now ≡ size)) (¬ ((after.now ≡ []) × (length inside.now ≡ size))) }
{
    after.is_empty() && inside.len() == size as usize
}

/// A fault in these bytes, where others stand behind them: its place is told by the number of bytes that are left of both.
pub fn moved(fault: Fault, inside: &[u8], rest: &[u8]) -> Fault
    requires { StandsIn inside.now fault }
    ensures { result ≡ moved_by (length rest.now) fault }
{
    match fault {
        Fault::Malformed(left) => Fault::Malformed(left + rest.len()),
        Fault::Unsupported(left, feature) => Fault::Unsupported(left + rest.len(), feature),
        Fault::NoMemory => Fault::NoMemory,
    }
}
