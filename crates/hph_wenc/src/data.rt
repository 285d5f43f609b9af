//! The data section (Core Specification 1.0, 5.5.14).
ghost use Rattle.std.specs.Prelude.{◌≡◌, ◌<◌, ◌^◌, ◌++◌, length, OnOk};
ghost use Rattle.hph_wasm.specs.Spelling.{segment_bytes};
ghost use Rattle.hph_wenc.specs.Fits.{SegmentFits};

use crate::instructions::put_expression;
use crate::put::Put;
use hph_leb::put_u32;
use hph_wasm::Segment;
use std::alloc::AllocError;

impl Put for Segment {
    ghost spelling = { segment_bytes };

    ghost fits = { SegmentFits };

    fn put(&self, out: &mut Vec<u8>) -> Result<(), AllocError> {
        put_u32(out, self.memory)?;
        put_expression(out, self.offset.as_slice())?;
        self.bytes.put(out)
    }
}
