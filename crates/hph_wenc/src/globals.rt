//! The global section (Core Specification 1.0, 5.5.9), and types of globals (5.3.7).
ghost use Rattle.std.specs.Prelude.{◌≡◌, ◌<◌, ◌^◌, ◌++◌, length, OnOk};
ghost use Rattle.hph_wasm.specs.Grammar.{mutable_byte};
ghost use Rattle.hph_wasm.specs.Spelling.{global_bytes, global_type_bytes};
ghost use Rattle.hph_wenc.specs.Fits.{GlobalFits};

use crate::byte_codes::{CONST, VAR};
use crate::instructions::put_expression;
use crate::put::Put;
use crate::types::value_type_code;
use hph_wasm::{Global, GlobalType};
use std::alloc::AllocError;

impl Put for GlobalType {
    ghost spelling = { global_type_bytes };

    ghost fits = { λ _. Unit {0} };

    fn put(&self, out: &mut Vec<u8>) -> Result<(), AllocError> {
        out.push(value_type_code(self.value))?;
        out.push(mutable_code(self.mutable))?;
        Ok(())
    }
}

/// The byte of whether a global can be set (5.3.7).
fn mutable_code(mutable: bool) -> u8
    ensures { result ≡ mutable_byte mutable }
{
    if mutable { VAR } else { CONST }
}

impl Put for Global {
    ghost spelling = { global_bytes };

    ghost fits = { GlobalFits };

    fn put(&self, out: &mut Vec<u8>) -> Result<(), AllocError> {
        self.ty.put(out)?;
        put_expression(out, self.init.as_slice())
    }
}
