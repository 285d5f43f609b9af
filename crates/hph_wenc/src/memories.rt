//! The memory section (Core Specification 1.0, 5.5.8).
ghost use Rattle.std.specs.Prelude.{◌≡◌, ◌<◌, ◌^◌, ◌++◌, length, OnOk};
ghost use Rattle.hph_wasm.specs.Spelling.{limits_bytes};
ghost use Rattle.hph_wenc.specs.Fits.{LimitsFit};

use crate::byte_codes::{MIN_ALONE, MIN_AND_MAX};
use crate::put::Put;
use hph_leb::put_u32;
use hph_wasm::Limits;
use std::alloc::AllocError;

impl Put for Limits {
    ghost spelling = { limits_bytes };

    ghost fits = { LimitsFit };

    fn put(&self, out: &mut Vec<u8>) -> Result<(), AllocError> {
        match self.max {
            None => {
                out.push(MIN_ALONE)?;
                put_u32(out, self.min)
            }
            Some(max) => {
                out.push(MIN_AND_MAX)?;
                put_u32(out, self.min)?;
                put_u32(out, max)
            }
        }
    }
}
