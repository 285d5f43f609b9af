//! Bytes and integers at the head of bytes (Core Specification 1.0, 5.2).
ghost use Rattle.std.specs.Prelude.{◌≡◌, ℕ, [], ◌∷◌, MatchOption, IfOk, IfErr};
ghost use Rattle.hph_wasm.specs.Leb128.{Unsigned, Signed};
ghost use Rattle.hph_wasm.specs.Grammar.{Byte};
ghost use Rattle.hph_wasm.specs.Unsupported.{Any, Nowhere};
ghost use Rattle.hph_wread.specs.Reading.{Took, Fails};

use crate::fault::Fault;
use hph_leb::{get_i32, get_i64, get_u32};

/// The first byte, and those behind it.
pub fn first_byte(bytes: &[u8]) -> Option<(u8, &[u8])>
    ensures { MatchOption result (bytes.now ≡ []) (λ r. bytes.now ≡ r.0 ∷ r.1.now) }
{
    let [first, rest @ ..] = bytes else {
        return None;
    };
    Some((*first, rest))
}

/// What stands behind this byte.
pub fn fixed_byte(bytes: &[u8], byte: u8) -> Result<&[u8], Fault>
    ensures read { IfOk result (λ rest. Took (Byte byte) bytes.now rest.now) }
    ensures stopped { IfErr result (λ e. Fails (Byte byte) Nowhere bytes.now e) }
{
    match first_byte(bytes) {
        Some((first, rest)) if first == byte => Ok(rest),
        _ => Err(Fault::Malformed(bytes.len())),
    }
}

/// An unsigned number of 32 bits (5.2.2).
pub fn unsigned(bytes: &[u8]) -> Result<(u32, &[u8]), Fault>
    ensures read { IfOk result (λ r. Took (Unsigned 32 r.0) bytes.now r.1.now) }
    ensures stopped { IfErr result (λ e. Fails (Any (Unsigned 32)) Nowhere bytes.now e) }
{
    let Some((value, length)) = get_u32(bytes, 0) else {
        return Err(Fault::Malformed(bytes.len()));
    };
    Ok((value, &bytes[length..]))
}

/// A signed number of 32 bits (5.2.2).
pub fn signed_32(bytes: &[u8]) -> Result<(i32, &[u8]), Fault>
    ensures read { IfOk result (λ r. Took (Signed 32 r.0) bytes.now r.1.now) }
    ensures stopped { IfErr result (λ e. Fails (Any (Signed 32)) Nowhere bytes.now e) }
{
    let Some((value, length)) = get_i32(bytes, 0) else {
        return Err(Fault::Malformed(bytes.len()));
    };
    Ok((value, &bytes[length..]))
}

/// A signed number of 64 bits (5.2.2).
pub fn signed_64(bytes: &[u8]) -> Result<(i64, &[u8]), Fault>
    ensures read { IfOk result (λ r. Took (Signed 64 r.0) bytes.now r.1.now) }
    ensures stopped { IfErr result (λ e. Fails (Any (Signed 64)) Nowhere bytes.now e) }
{
    let Some((value, length)) = get_i64(bytes, 0) else {
        return Err(Fault::Malformed(bytes.len()));
    };
    Ok((value, &bytes[length..]))
}
