//! Value types and what blocks give (Core Specification 1.0, 5.3).
ghost use Rattle.std.specs.Prelude.{◌≡◌, Some, None, IfOk, IfErr};
ghost use Rattle.hph_wasm.specs.Grammar.{ValueType, ResultType};
ghost use Rattle.hph_wasm.specs.Unsupported.{Any, StopsValueType};
ghost use Rattle.hph_wread.specs.Reading.{Took, Fails};

use crate::fault::Fault;
use crate::numbers::first_byte;
use hph_wasm::{BlockType, Feature, ValType};

/// A value type (5.3.1).
pub fn value_type(bytes: &[u8]) -> Result<(ValType, &[u8]), Fault>
    ensures read { IfOk result (λ r. Took (ValueType r.0) bytes.now r.1.now) }
    ensures stopped { IfErr result (λ e. Fails (Any ValueType) StopsValueType bytes.now e) }
{
    match first_byte(bytes) {
        Some((0x7F, rest)) => Ok((ValType::I32, rest)),
        Some((0x7E, rest)) => Ok((ValType::I64, rest)),
        Some((0x7D, _)) => Err(Fault::Unsupported(bytes.len(), Feature::F32)),
        Some((0x7C, _)) => Err(Fault::Unsupported(bytes.len(), Feature::F64)),
        _ => Err(Fault::Malformed(bytes.len())),
    }
}

/// What a block gives (5.3.2).
pub fn block_type(bytes: &[u8]) -> Result<(BlockType, &[u8]), Fault>
    ensures read { IfOk result (λ r. Took (ResultType r.0) bytes.now r.1.now) }
    ensures stopped { IfErr result (λ e. Fails (Any ResultType) StopsValueType bytes.now e) }
{
    match first_byte(bytes) {
        Some((0x40, rest)) => Ok((no_result(), rest)),
        Some((0x7F, rest)) => Ok((one_result(ValType::I32), rest)),
        Some((0x7E, rest)) => Ok((one_result(ValType::I64), rest)),
        Some((0x7D, _)) => Err(Fault::Unsupported(bytes.len(), Feature::F32)),
        Some((0x7C, _)) => Err(Fault::Unsupported(bytes.len(), Feature::F64)),
        _ => Err(Fault::Malformed(bytes.len())),
    }
}

fn no_result() -> BlockType
    ensures { result.result ≡ None }
{
    BlockType { result: None }
}

fn one_result(value: ValType) -> BlockType
    ensures { result.result ≡ Some value }
{
    BlockType {
        result: Some(value),
    }
}
