//! The export section (Core Specification 1.0, 5.5.10).
ghost use Rattle.std.specs.Prelude.{◌≡◌, ◌∷◌, IfOk, IfErr};
ghost use Rattle.hph_wasm.specs.ModuleGrammar.{Exported, ExportedThing};
ghost use Rattle.hph_wasm.specs.Unsupported.{Any, Nowhere};
ghost use Rattle.hph_wread.specs.Kinds.{exported};
ghost use Rattle.hph_wread.specs.Reading.{Took, Fails};

use crate::fault::Fault;
use crate::kinds::{ExternalKind, external_kind};
use crate::names::name;
use crate::numbers::unsigned;
use hph_wasm::{Export, ExportDesc, types_are_read_in_one_way};
use std::alloc::Global;

/// An export: a name, and what it shows.
pub fn export(alloc: Global, bytes: &[u8]) -> Result<(Export, &[u8]), Fault>
    ensures read { IfOk result (λ r. Took (Exported r.0) bytes.now r.1.now) }
    ensures stopped { IfErr result (λ e. Fails (Any Exported) Nowhere bytes.now e) }
{
    types_are_read_in_one_way();
    let (name, behind) = name(alloc, bytes)?;
    let (desc, rest) = export_desc(behind)?;
    Ok((Export { name, desc }, rest))
}

/// What is exported.
fn export_desc(bytes: &[u8]) -> Result<(ExportDesc, &[u8]), Fault>
    ensures read { IfOk result (λ r. Took (ExportedThing r.0) bytes.now r.1.now) }
    ensures stopped { IfErr result (λ e. Fails (Any ExportedThing) Nowhere bytes.now e) }
{
    let (kind, behind) = external_kind(bytes)?;
    let (number, rest) = unsigned(behind)?;
    Ok((export_of(kind, number), rest))
}

/// The thing of this kind and number.
fn export_of(kind: ExternalKind, number: u32) -> ExportDesc
    ensures { result ≡ exported kind number }
{
    match kind {
        ExternalKind::Func => ExportDesc::Func(number),
        ExternalKind::Table => ExportDesc::Table(number),
        ExternalKind::Memory => ExportDesc::Memory(number),
        ExternalKind::Global => ExportDesc::Global(number),
    }
}
