//! The import section (Core Specification 1.0, 5.5.5).
ghost use Rattle.std.specs.Prelude.{◌≡◌, ◌<◌, ◌^◌, ◌++◌, length, OnOk};
ghost use Rattle.hph_wasm.specs.Spelling.{import_bytes, import_desc_bytes};
ghost use Rattle.hph_wenc.specs.Fits.{ImportFits, ImportDescFits};

use crate::byte_codes::{FUNC, GLOBAL, MEMORY, TABLE};
use crate::put::{Put, put_bytes};
use crate::tables::table_type;
use hph_leb::put_u32;
use hph_wasm::{Import, ImportDesc};
use std::alloc::AllocError;

impl Put for Import {
    ghost spelling = { import_bytes };

    ghost fits = { ImportFits };

    fn put(&self, out: &mut Vec<u8>) -> Result<(), AllocError> {
        put_bytes(out, self.module.as_str().as_bytes())?;
        put_bytes(out, self.name.as_str().as_bytes())?;
        put_import_desc(out, self.desc)
    }
}

fn put_import_desc(out: &mut Vec<u8>, desc: ImportDesc) -> Result<(), AllocError>
    requires { length (import_desc_bytes desc) < 2 ^ 32 }
    ensures put { OnOk result (out.new.items ≡ out.old.items ++ import_desc_bytes desc) }
    ensures fit { OnOk result (ImportDescFits desc) }
{
    match desc {
        ImportDesc::Func(ty) => {
            out.push(FUNC)?;
            put_u32(out, ty)
        }
        ImportDesc::Table(limits) => {
            out.push(TABLE)?;
            table_type(limits).put(out)
        }
        ImportDesc::Memory(limits) => {
            out.push(MEMORY)?;
            limits.put(out)
        }
        ImportDesc::Global(ty) => {
            out.push(GLOBAL)?;
            ty.put(out)
        }
    }
}
