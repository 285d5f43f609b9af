//! The type section (Core Specification 1.0, 5.5.4), and types (5.3).
ghost use Rattle.std.specs.Prelude.{◌≡◌, ◌<◌, ◌^◌, ◌++◌, ◌∷◌, length, OnOk};
ghost use Rattle.hph_wasm.specs.Grammar.{type_byte};
ghost use Rattle.hph_wasm.specs.Spelling.{value_type_bytes, func_type_bytes};

use crate::byte_codes::{FUNC_TYPE, I32, I64};
use crate::put::{Put, put_vector};
use hph_wasm::{FuncType, ValType};
use std::alloc::AllocError;

/// The byte of a value type (5.3.1).
pub fn value_type_code(ty: ValType) -> u8
    ensures { result ≡ type_byte ty }
{
    match ty {
        ValType::I32 => I32,
        ValType::I64 => I64,
    }
}

impl Put for ValType {
    ghost spelling = { value_type_bytes };

    ghost fits = { λ _. Unit {0} };

    fn put(&self, out: &mut Vec<u8>) -> Result<(), AllocError> {
        out.push(value_type_code(*self))?;
        Ok(())
    }
}

impl Put for FuncType {
    ghost spelling = { func_type_bytes };

    ghost fits = { λ _. Unit {0} };

    fn put(&self, out: &mut Vec<u8>) -> Result<(), AllocError> {
        out.push(FUNC_TYPE)?;
        put_vector(out, self.params.as_slice())?;
        put_vector(out, self.results.as_slice())
    }
}
