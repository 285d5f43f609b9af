//! Function types (Core Specification 1.0, 5.3.3).
ghost use Rattle.std.specs.Prelude.{IfOk, IfErr};
ghost use Rattle.hph_wasm.specs.Grammar.{FunctionType, ValueType};
ghost use Rattle.hph_wasm.specs.Unsupported.{Any, IsAnything, StopsFunctionType, StopsValueType};
ghost use Rattle.hph_wread.specs.Reading.{Took, Fails};

use crate::fault::Fault;
use crate::numbers::fixed_byte;
use crate::part::{Part, vector};
use crate::types::value_type;
use hph_wasm::{FuncType, ValType, parts_stop_in_one_place, types_are_read_in_one_way};
use std::alloc::Global;

/// The byte that function types begin with.
const FUNCTION: u8 = 0x60;

impl Part for ValType {
    ghost use Rattle.hph_wasm.specs.Grammar.{ValueType};
    ghost use Rattle.hph_wasm.specs.Unsupported.{IsAnything, StopsValueType};

    ghost grammar = { ValueType };

    ghost fits = { IsAnything };

    ghost stop = { StopsValueType };

    fn read_in_one_way() {
        types_are_read_in_one_way();
        parts_stop_in_one_place();
    }

    fn read(_alloc: Global, bytes: &[u8]) -> Result<(ValType, &[u8]), Fault> {
        value_type(bytes)
    }
}

impl Part for FuncType {
    ghost use Rattle.hph_wasm.specs.Grammar.{FunctionType};
    ghost use Rattle.hph_wasm.specs.Unsupported.{IsAnything, StopsFunctionType};

    ghost grammar = { FunctionType };

    ghost fits = { IsAnything };

    ghost stop = { StopsFunctionType };

    fn read_in_one_way() {
        types_are_read_in_one_way();
        parts_stop_in_one_place();
    }

    fn read(alloc: Global, bytes: &[u8]) -> Result<(FuncType, &[u8]), Fault> {
        function_type(alloc, bytes)
    }
}

/// A function type: the types that it takes, and those that it gives.
fn function_type(alloc: Global, bytes: &[u8]) -> Result<(FuncType, &[u8]), Fault>
    ensures read { IfOk result (λ r. Took (FunctionType r.0) bytes.now r.1.now) }
    ensures stopped { IfErr result (λ e. Fails (Any FunctionType) StopsFunctionType bytes.now e) }
{
    types_are_read_in_one_way();
    parts_stop_in_one_place();
    let behind = fixed_byte(bytes, FUNCTION)?;
    let (params, rest) = vector::<ValType>(alloc, behind)?;
    let (results, rest) = vector::<ValType>(alloc, rest)?;
    Ok((FuncType { params, results }, rest))
}
