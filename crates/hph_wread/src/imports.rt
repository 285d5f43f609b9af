//! The import section (Core Specification 1.0, 5.5.5).
ghost use Rattle.std.specs.Prelude.{IfOk, IfErr};
ghost use Rattle.hph_wasm.specs.ModuleGrammar.{Imported, ImportedThing};
ghost use Rattle.hph_wasm.specs.Unsupported.{Any, IsSmallThing, IsSmallImport, StopsImported, StopsImportedThing};
ghost use Rattle.hph_wread.specs.Reading.{Took, Fails};

use crate::fault::Fault;
use crate::kinds::{ExternalKind, external_kind};
use crate::limits::{global_type, memory_type, table_type};
use crate::names::name;
use crate::numbers::unsigned;
use crate::part::Part;
use hph_wasm::{
    Import, ImportDesc, parts_stop_in_one_place, sections_are_read_in_one_way,
    types_are_read_in_one_way,
};
use std::alloc::Global;

impl Part for Import {
    ghost use Rattle.hph_wasm.specs.ModuleGrammar.{Imported};
    ghost use Rattle.hph_wasm.specs.Unsupported.{IsSmallImport, StopsImported};

    ghost grammar = { Imported };

    ghost fits = { IsSmallImport };

    ghost stop = { StopsImported };

    fn read_in_one_way() {
        sections_are_read_in_one_way();
        parts_stop_in_one_place();
    }

    fn read(alloc: Global, bytes: &[u8]) -> Result<(Import, &[u8]), Fault> {
        import(alloc, bytes)
    }
}

/// An import: the name of a module, a name in it, and what it is.
fn import(alloc: Global, bytes: &[u8]) -> Result<(Import, &[u8]), Fault>
    ensures read { IfOk result (λ r. Took (Imported r.0) bytes.now r.1.now) }
    ensures fit { IfOk result (λ r. IsSmallImport r.0) }
    ensures stopped { IfErr result (λ e. Fails (Any Imported) StopsImported bytes.now e) }
{
    types_are_read_in_one_way();
    let (host, behind) = name(alloc, bytes)?;
    let (thing, behind) = name(alloc, behind)?;
    let (desc, rest) = import_desc(behind)?;
    Ok((
        Import {
            module: host,
            name: thing,
            desc,
        },
        rest,
    ))
}

/// What is imported.
fn import_desc(bytes: &[u8]) -> Result<(ImportDesc, &[u8]), Fault>
    ensures read { IfOk result (λ r. Took (ImportedThing r.0) bytes.now r.1.now) }
    ensures fit { IfOk result (λ r. IsSmallThing r.0) }
    ensures stopped { IfErr result (λ e. Fails (Any ImportedThing) StopsImportedThing bytes.now e) }
{
    let (kind, behind) = external_kind(bytes)?;
    match kind {
        ExternalKind::Func => {
            let (ty, rest) = unsigned(behind)?;
            Ok((ImportDesc::Func(ty), rest))
        }
        ExternalKind::Table => {
            let (table, rest) = table_type(behind)?;
            Ok((ImportDesc::Table(table), rest))
        }
        ExternalKind::Memory => {
            let (memory, rest) = memory_type(behind)?;
            Ok((ImportDesc::Memory(memory), rest))
        }
        ExternalKind::Global => {
            let (global, rest) = global_type(behind)?;
            Ok((ImportDesc::Global(global), rest))
        }
    }
}
