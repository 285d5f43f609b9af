//! The table section (Core Specification 1.0, 5.5.7).
ghost use Rattle.std.specs.Prelude.{◌≡◌, ◌<◌, ◌^◌, ◌++◌, ◌∷◌, length, IfOk, OnOk};
ghost use Rattle.hph_wasm.specs.Spelling.{table_type_bytes};
ghost use Rattle.hph_wenc.specs.Fits.{LimitsFit};

use crate::byte_codes::FUNC_REF;
use crate::put::Put;
use hph_wasm::Limits;
use std::alloc::{AllocError, Global};
use std::marker::Model;

/// The type of a table of functions (5.3.6). Contracts see the limits of its size.
#[derive(Drop)]
pub struct TableType {
    limits: Limits,
}

impl Model for TableType {
    ghost use Rattle.hph_wasm.specs.declared.types.Limits.{Limits};

    ghost Value = { Limits };

    ghost view = { λ table. table.limits };
}

impl Put for TableType {
    ghost spelling = { table_type_bytes };

    ghost fits = { LimitsFit };

    fn put(&self, out: &mut Vec<u8>) -> Result<(), AllocError> {
        out.push(FUNC_REF)?;
        self.limits.put(out)
    }
}

/// The type of a table of functions of this size.
pub fn table_type(limits: Limits) -> TableType
    ensures { result ≡ limits }
{
    TableType { limits }
}

/// The type of each table.
pub fn table_types(alloc: Global, tables: &[Limits]) -> Result<Vec<TableType>, AllocError>
    ensures { IfOk result (λ types. types.items ≡ tables.now) }
{
    let mut types = Vec::new(alloc);
    for limits in tables {
        types.push(table_type(*limits))?;
    }
    Ok(types)
}
