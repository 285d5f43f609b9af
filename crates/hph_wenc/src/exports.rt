//! The export section (Core Specification 1.0, 5.5.10).
ghost use Rattle.std.specs.Prelude.{◌≡◌, ◌<◌, ◌^◌, ◌++◌, length, OnOk};
ghost use Rattle.hph_wasm.specs.Spelling.{export_bytes, export_desc_bytes};
ghost use Rattle.hph_wenc.specs.Fits.{ExportFits, ExportDescFits};

use crate::byte_codes::{FUNC, GLOBAL, MEMORY, TABLE};
use crate::put::{Put, put_bytes};
use hph_leb::put_u32;
use hph_wasm::{Export, ExportDesc};
use std::alloc::AllocError;

impl Put for Export {
    ghost spelling = { export_bytes };

    ghost fits = { ExportFits };

    fn put(&self, out: &mut Vec<u8>) -> Result<(), AllocError> {
        put_bytes(out, self.name.as_str().as_bytes())?;
        put_export_desc(out, self.desc)
    }
}

fn put_export_desc(out: &mut Vec<u8>, desc: ExportDesc) -> Result<(), AllocError>
    ensures put { OnOk result (out.new.items ≡ out.old.items ++ export_desc_bytes desc) }
    ensures fit { ExportDescFits desc }
{
    match desc {
        ExportDesc::Func(func) => {
            out.push(FUNC)?;
            put_u32(out, func)
        }
        ExportDesc::Table(table) => {
            out.push(TABLE)?;
            put_u32(out, table)
        }
        ExportDesc::Memory(memory) => {
            out.push(MEMORY)?;
            put_u32(out, memory)
        }
        ExportDesc::Global(global) => {
            out.push(GLOBAL)?;
            put_u32(out, global)
        }
    }
}
