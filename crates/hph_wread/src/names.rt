//! Bytes behind their number, and names (Core Specification 1.0, 5.2.1 and 5.2.4).
ghost use Rattle.std.specs.Prelude.{IfOk, IfErr};
ghost use Rattle.hph_wasm.specs.Grammar.{Bytes, Named};
ghost use Rattle.hph_wasm.specs.Unsupported.{Any, Nowhere};
ghost use Rattle.hph_wread.specs.Reading.{Took, Fails};

use crate::fault::Fault;
use crate::numbers::unsigned;
use hph_wasm::{Name, types_are_read_in_one_way};
use std::alloc::Global;

/// A vector of bytes (5.2.1).
pub fn counted_bytes(bytes: &[u8]) -> Result<(&[u8], &[u8]), Fault>
    ensures read { IfOk result (λ r. Took (Bytes r.0.now) bytes.now r.1.now) }
    ensures stopped { IfErr result (λ e. Fails (Any Bytes) Nowhere bytes.now e) }
{
    types_are_read_in_one_way();
    let (count, behind) = unsigned(bytes)?;
    let count = count as usize;
    if behind.len() < count {
        return Err(Fault::Malformed(behind.len()));
    }
    Ok((&behind[..count], &behind[count..]))
}

/// A name: bytes that are UTF-8 (5.2.4).
pub fn name(alloc: Global, bytes: &[u8]) -> Result<(Name, &[u8]), Fault>
    ensures read { IfOk result (λ r. Took (Named r.0) bytes.now r.1.now) }
    ensures stopped { IfErr result (λ e. Fails (Any Named) Nowhere bytes.now e) }
{
    types_are_read_in_one_way();
    let (these, rest) = counted_bytes(bytes)?;
    let Ok(text) = str::from_utf8(these) else {
        return Err(Fault::Malformed(rest.len()));
    };
    let name = Name::new(alloc, text)?;
    Ok((name, rest))
}
