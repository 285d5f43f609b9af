//! Bytes that tell what stands behind them (Core Specification 1.0, 5.3.4, 5.3.7, 5.5.5 and 5.5.10).
ghost use Rattle.std.specs.Prelude.{IfOk, IfErr};
ghost use Rattle.hph_wasm.specs.Grammar.{Byte, mutable_byte};
ghost use Rattle.hph_wasm.specs.Unsupported.{Any, Nowhere, LimitsByte};
ghost use Rattle.hph_wread.specs.Kinds.{KindByte};
ghost use Rattle.hph_wread.specs.Reading.{Took, Fails};

use crate::fault::Fault;
use crate::numbers::first_byte;

/// What kind of thing is imported, or exported.
#[derive(Clone, Copy, Debug, PartialEq, Eq)]
pub enum ExternalKind {
    Func,
    Table,
    Memory,
    Global,
}

/// The kind of an import or of an export (5.5.5, 5.5.10).
pub fn external_kind(bytes: &[u8]) -> Result<(ExternalKind, &[u8]), Fault>
    ensures read { IfOk result (λ r. Took (KindByte r.0) bytes.now r.1.now) }
    ensures stopped { IfErr result (λ e. Fails (Any KindByte) Nowhere bytes.now e) }
{
    match first_byte(bytes) {
        Some((0x00, rest)) => Ok((ExternalKind::Func, rest)),
        Some((0x01, rest)) => Ok((ExternalKind::Table, rest)),
        Some((0x02, rest)) => Ok((ExternalKind::Memory, rest)),
        Some((0x03, rest)) => Ok((ExternalKind::Global, rest)),
        _ => Err(Fault::Malformed(bytes.len())),
    }
}

/// Whether there is a greatest size (5.3.4), or a global can be set (5.3.7).
pub fn flag(bytes: &[u8]) -> Result<(bool, &[u8]), Fault>
    ensures read { IfOk result (λ r. Took (Byte (mutable_byte r.0)) bytes.now r.1.now) }
    ensures stopped { IfErr result (λ e. Fails LimitsByte Nowhere bytes.now e) }
{
    match first_byte(bytes) {
        Some((0x00, rest)) => Ok((false, rest)),
        Some((0x01, rest)) => Ok((true, rest)),
        _ => Err(Fault::Malformed(bytes.len())),
    }
}
