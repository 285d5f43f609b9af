//! What stands outside code (Core Specification 1.0, 3.2 and 3.4).
ghost use Rattle.std.specs.Prelude.{◌≡◌, ◌^◌, ◌&&◌, length, nat_lt, nat_le, IfOk};
ghost use Rattle.hph_wvalid.specs.Outside.{every, is_func_type, is_max, is_limits, is_import, is_export, constant_type, is_initial, is_global, is_element, is_segment, is_named_once, are_types, are_contents};

use crate::spaces::Spaces;
use hph_wasm::{
    Element, Export, ExportDesc, Func, FuncType, Global, GlobalType, Import, ImportDesc, Instr,
    Limits, Module, Segment, ValType,
};
use std::alloc::AllocError;
use std::collections::BTreeSet;

/// The most entries of a table (3.2.3).
const MOST_ENTRIES: u64 = 4294967296;

/// The most pages of a memory (3.2.4).
const MOST_PAGES: u64 = 65536;

/// Whether the function types have at most one result each (3.2.2).
fn are_func_types(tys: &[FuncType]) -> bool
    ensures { result ≡ every is_func_type tys.now }
{
    for ty in tys {
        if !(ty.results.len() <= 1) {
            return false;
        }
    }
    true
}

/// Whether the greatest size is within a range, and not below the least one.
fn has_max(range: u64, min: u32, max: Option<u32>) -> bool
    ensures { result ≡ is_max range min max }
{
    match max {
        None => true,
        Some(max) => u64::from(max) <= range && min <= max,
    }
}

/// Whether the limits are within a range (3.2.1).
fn has_limits(range: u64, limits: Limits) -> bool
    ensures { result ≡ is_limits range limits }
{
    u64::from(limits.min) <= range && has_max(range, limits.min, limits.max)
}

/// The same of each.
fn all_have_limits(range: u64, all: &[Limits]) -> bool
    ensures { result ≡ every (is_limits range) all.now }
{
    for limits in all {
        if !has_limits(range, *limits) {
            return false;
        }
    }
    true
}

/// Whether what is imported has a type that is valid, where there are so many function types (3.4.9).
fn is_imported(types: usize, desc: ImportDesc) -> bool
    ensures { result ≡ is_import types desc }
{
    match desc {
        ImportDesc::Func(ty) => (ty as usize) < types,
        ImportDesc::Table(limits) => has_limits(MOST_ENTRIES, limits),
        ImportDesc::Memory(limits) => has_limits(MOST_PAGES, limits),
        ImportDesc::Global(_) => true,
    }
}

/// The same of each.
fn are_imports(types: usize, imports: &[Import]) -> bool
    ensures { result ≡ every (λ import. is_import types import.desc) imports.now }
{
    for import in imports {
        if !is_imported(types, import.desc) {
            return false;
        }
    }
    true
}

/// Whether the functions have types that are there, of which there are so many (3.4.1).
fn have_types(types: usize, funcs: &[Func]) -> bool
    ensures { result ≡ every (λ func. nat_lt func.ty types) funcs.now }
{
    for func in funcs {
        if !((func.ty as usize) < types) {
            return false;
        }
    }
    true
}

/// Whether what is exported is there (3.4.8).
fn is_exported(spaces: &Spaces, desc: ExportDesc) -> bool
    ensures { result ≡ is_export spaces.now desc }
{
    match desc {
        ExportDesc::Func(func) => (func as usize) < spaces.functions.len(),
        ExportDesc::Table(table) => (table as usize) < spaces.tables.len(),
        ExportDesc::Memory(memory) => (memory as usize) < spaces.memories.len(),
        ExportDesc::Global(global) => (global as usize) < spaces.globals.len(),
    }
}

/// The same of each.
fn are_exports(spaces: &Spaces, exports: &[Export]) -> bool
    ensures { result ≡ every (λ export. is_export spaces.now export.desc) exports.now }
{
    for export in exports {
        if !is_exported(spaces, export.desc) {
            return false;
        }
    }
    true
}

/// The type of a constant instruction, where globals have these types; none of others (3.3.7.2).
fn type_of_constant(types: &[GlobalType], instr: &Instr) -> Option<ValType>
    ensures { result ≡ constant_type types.now instr.now }
{
    match instr {
        Instr::I32Const(_) => Some(ValType::I32),
        Instr::I64Const(_) => Some(ValType::I64),
        Instr::GlobalGet(global) => match types.get(*global as usize) {
            None => None,
            Some(ty) => { if ty.mutable { None } else { Some(ty.value) } }
        },
        _ => None,
    }
}

/// Whether an expression is one constant of the type.
fn is_constant(types: &[GlobalType], ty: ValType, code: &[Instr]) -> bool
    ensures { result ≡ is_initial types.now ty code.now }
{
    match code {
        [] => false,
        [instr] => match type_of_constant(types, instr) {
            None => false,
            Some(other) => ty == other,
        },
        [_, _, ..] => false,
    }
}

/// Whether the globals have initial values of their types, which see globals of these types (3.4.4).
fn are_globals(types: &[GlobalType], globals: &[Global]) -> bool
    ensures { result ≡ every (is_global types.now) globals.now }
{
    for global in globals {
        if !is_constant(types, global.ty.value, global.init.as_slice()) {
            return false;
        }
    }
    true
}

/// Whether the functions are there, of which there are so many.
fn are_functions(functions: usize, funcs: &[u32]) -> bool
    ensures { result ≡ every (λ f. nat_lt f functions) funcs.now }
{
    for func in funcs {
        if !((*func as usize) < functions) {
            return false;
        }
    }
    true
}

/// Whether an element segment is valid (3.4.5).
fn is_element_segment(spaces: &Spaces, element: &Element) -> bool
    ensures { result ≡ is_element spaces.now element.now }
{
    (element.table as usize) < spaces.tables.len()
        && is_constant(
            spaces.globals.as_slice(),
            ValType::I32,
            element.offset.as_slice(),
        )
        && are_functions(spaces.functions.len(), element.funcs.as_slice())
}

/// The same of each.
fn are_elements(spaces: &Spaces, elements: &[Element]) -> bool
    ensures { result ≡ every (is_element spaces.now) elements.now }
{
    for element in elements {
        if !is_element_segment(spaces, element) {
            return false;
        }
    }
    true
}

/// Whether a data segment is valid (3.4.6).
fn is_data_segment(spaces: &Spaces, segment: &Segment) -> bool
    ensures { result ≡ is_segment spaces.now segment.now }
{
    (segment.memory as usize) < spaces.memories.len()
        && is_constant(
            spaces.globals.as_slice(),
            ValType::I32,
            segment.offset.as_slice(),
        )
}

/// The same of each.
fn are_segments(spaces: &Spaces, segments: &[Segment]) -> bool
    ensures { result ≡ every (is_segment spaces.now) segments.now }
{
    for segment in segments {
        if !is_data_segment(spaces, segment) {
            return false;
        }
    }
    true
}

/// Whether each name is exported once (3.4.10).
fn are_named_once(alloc: std::alloc::Global, exports: &[Export]) -> Result<bool, AllocError>
    ensures { IfOk result (λ once. once ≡ is_named_once exports.now) }
{
    let mut names = BTreeSet::new(alloc);
    for export in exports {
        if !names.insert(export.name.as_str())? {
            return Ok(false);
        }
    }
    Ok(true)
}

/// Whether the types, tables and memories are valid, with what is imported.
pub fn has_types(m: &Module, spaces: &Spaces) -> bool
    ensures { result ≡ are_types m.now spaces.now }
{
    let types = m.types.len();
    are_func_types(m.types.as_slice())
        && are_imports(types, m.imports.as_slice())
        && have_types(types, m.funcs.as_slice())
        && all_have_limits(MOST_ENTRIES, m.tables.as_slice())
        && spaces.tables.len() <= 1
        && all_have_limits(MOST_PAGES, m.memories.as_slice())
        && spaces.memories.len() <= 1
}

/// Whether the globals, exports and segments are valid.
pub fn has_contents(
    alloc: std::alloc::Global,
    m: &Module,
    spaces: &Spaces,
) -> Result<bool, AllocError>
    ensures { IfOk result (λ valid. valid ≡ are_contents m.now spaces.now) }
{
    if are_globals(spaces.imported_globals.as_slice(), m.globals.as_slice())
        && are_exports(spaces, m.exports.as_slice())
        && are_elements(spaces, m.elements.as_slice())
        && are_segments(spaces, m.segments.as_slice())
    {
        are_named_once(alloc, m.exports.as_slice())
    } else {
        Ok(false)
    }
}
