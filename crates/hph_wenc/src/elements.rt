//! The element section (Core Specification 1.0, 5.5.12).
ghost use Rattle.std.specs.Prelude.{◌≡◌, ◌<◌, ◌^◌, ◌++◌, length, OnOk};
ghost use Rattle.hph_wasm.specs.Spelling.{element_bytes};
ghost use Rattle.hph_wenc.specs.Fits.{ElementFits};

use crate::instructions::put_expression;
use crate::put::{Put, put_indices};
use hph_leb::put_u32;
use hph_wasm::Element;
use std::alloc::AllocError;

impl Put for Element {
    ghost spelling = { element_bytes };

    ghost fits = { ElementFits };

    fn put(&self, out: &mut Vec<u8>) -> Result<(), AllocError> {
        put_u32(out, self.table)?;
        put_expression(out, self.offset.as_slice())?;
        put_indices(out, self.funcs.as_slice())
    }
}
