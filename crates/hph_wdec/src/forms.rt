//! The entries of sections that are read by one call (Core Specification 1.0, 5.5.4 to 5.5.10).
ghost use Rattle.std.specs.Prelude.{IfOk, IfErr};
ghost use Rattle.hph_wasm.specs.ModuleGrammar.{GlobalWithValue};
ghost use Rattle.hph_wasm.specs.Unsupported.{Any, HasShallowValue, StopsGlobal};
ghost use Rattle.hph_wread.specs.Reading.{Took, Fails};

use crate::entries::EntryForm;
use hph_wasm::{
    Export, FuncType, Global, Import, Limits, parts_stop_in_one_place,
    sections_are_read_in_one_way, types_are_read_in_one_way,
};
use hph_wread::{Fault, Part, export, expression, global_type, memory_type, table_type, unsigned};
use std::alloc;

/// Function types (5.5.4).
pub struct TypeForm;

impl EntryForm for TypeForm {
    ghost use Rattle.hph_wasm.specs.Grammar.{FunctionType};
    ghost use Rattle.hph_wasm.specs.Unsupported.{IsAnything, StopsFunctionType};

    type Entry = FuncType;

    ghost grammar = { FunctionType };

    ghost fits = { IsAnything };

    ghost stop = { StopsFunctionType };

    fn read_in_one_way() {
        types_are_read_in_one_way();
        parts_stop_in_one_place();
    }

    fn read_entry(alloc: alloc::Global, bytes: &[u8]) -> Result<(FuncType, &[u8]), Fault> {
        <FuncType as Part>::read(alloc, bytes)
    }
}

/// Imports (5.5.5).
pub struct ImportForm;

impl EntryForm for ImportForm {
    ghost use Rattle.hph_wasm.specs.ModuleGrammar.{Imported};
    ghost use Rattle.hph_wasm.specs.Unsupported.{IsSmallImport, StopsImported};

    type Entry = Import;

    ghost grammar = { Imported };

    ghost fits = { IsSmallImport };

    ghost stop = { StopsImported };

    fn read_in_one_way() {
        sections_are_read_in_one_way();
        parts_stop_in_one_place();
    }

    fn read_entry(alloc: alloc::Global, bytes: &[u8]) -> Result<(Import, &[u8]), Fault> {
        <Import as Part>::read(alloc, bytes)
    }
}

/// Numbers of types: one for each function (5.5.6).
pub struct TypeIndexForm;

impl EntryForm for TypeIndexForm {
    ghost use Rattle.hph_wasm.specs.Leb128.{Unsigned};
    ghost use Rattle.hph_wasm.specs.Unsupported.{IsAnything, Nowhere};

    type Entry = u32;

    ghost grammar = { Unsigned 32 };

    ghost fits = { IsAnything };

    ghost stop = { Nowhere };

    fn read_in_one_way() {
        types_are_read_in_one_way();
    }

    fn read_entry(_alloc: alloc::Global, bytes: &[u8]) -> Result<(u32, &[u8]), Fault> {
        unsigned(bytes)
    }
}

/// Tables (5.5.7).
pub struct TableForm;

impl EntryForm for TableForm {
    ghost use Rattle.hph_wasm.specs.Grammar.{TableType};
    ghost use Rattle.hph_wasm.specs.Unsupported.{IsSmallTable, StopsTableType};

    type Entry = Limits;

    ghost grammar = { TableType };

    ghost fits = { IsSmallTable };

    ghost stop = { StopsTableType };

    fn read_in_one_way() {
        types_are_read_in_one_way();
        parts_stop_in_one_place();
    }

    fn read_entry(_alloc: alloc::Global, bytes: &[u8]) -> Result<(Limits, &[u8]), Fault> {
        table_type(bytes)
    }
}

/// Memories (5.5.8).
pub struct MemoryForm;

impl EntryForm for MemoryForm {
    ghost use Rattle.hph_wasm.specs.Grammar.{MemoryType};
    ghost use Rattle.hph_wasm.specs.Unsupported.{IsSmallMemory, StopsMemoryType};

    type Entry = Limits;

    ghost grammar = { MemoryType };

    ghost fits = { IsSmallMemory };

    ghost stop = { StopsMemoryType };

    fn read_in_one_way() {
        types_are_read_in_one_way();
        parts_stop_in_one_place();
    }

    fn read_entry(_alloc: alloc::Global, bytes: &[u8]) -> Result<(Limits, &[u8]), Fault> {
        memory_type(bytes)
    }
}

/// Globals (5.5.9).
pub struct GlobalForm;

impl EntryForm for GlobalForm {
    ghost use Rattle.hph_wasm.specs.ModuleGrammar.{GlobalWithValue};
    ghost use Rattle.hph_wasm.specs.Unsupported.{HasShallowValue, StopsGlobal};

    type Entry = Global;

    ghost grammar = { GlobalWithValue };

    ghost fits = { HasShallowValue };

    ghost stop = { StopsGlobal };

    fn read_in_one_way() {
        sections_are_read_in_one_way();
        parts_stop_in_one_place();
    }

    fn read_entry(alloc: alloc::Global, bytes: &[u8]) -> Result<(Global, &[u8]), Fault> {
        global(alloc, bytes)
    }
}

/// A global: its type, and the expression of its first value.
fn global(alloc: alloc::Global, bytes: &[u8]) -> Result<(Global, &[u8]), Fault>
    ensures read { IfOk result (λ r. Took (GlobalWithValue r.0) bytes.now r.1.now) }
    ensures fit { IfOk result (λ r. HasShallowValue r.0) }
    ensures stopped { IfErr result (λ e. Fails (Any GlobalWithValue) StopsGlobal bytes.now e) }
{
    types_are_read_in_one_way();
    parts_stop_in_one_place();
    let (ty, behind) = global_type(bytes)?;
    let (init, rest) = expression(alloc, behind)?;
    Ok((Global { ty, init }, rest))
}

/// Exports (5.5.10).
pub struct ExportForm;

impl EntryForm for ExportForm {
    ghost use Rattle.hph_wasm.specs.ModuleGrammar.{Exported};
    ghost use Rattle.hph_wasm.specs.Unsupported.{IsAnything, Nowhere};

    type Entry = Export;

    ghost grammar = { Exported };

    ghost fits = { IsAnything };

    ghost stop = { Nowhere };

    fn read_in_one_way() {
        sections_are_read_in_one_way();
    }

    fn read_entry(alloc: alloc::Global, bytes: &[u8]) -> Result<(Export, &[u8]), Fault> {
        export(alloc, bytes)
    }
}
