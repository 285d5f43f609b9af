//! What a module has by number, the imported ones first (Core Specification 1.0, 2.5.1).
ghost use Rattle.std.specs.Prelude.{◌≡◌, IfOk, map};
ghost use Rattle.hph_wasm.specs.Functions.{imported_functions, functions, type_number, tables, memories, imported_globals, globals};
ghost use Rattle.hph_wvalid.specs.Spaces.{spaces_of};

use hph_wasm::{GlobalType, Import, ImportDesc, Limits, Module};
use sqlite_items::Items;
use std::alloc::{AllocError, Global};

/// The types of what a module has by number, the imported ones first.
#[derive(Drop)]
pub struct Spaces {
    /// The numbers of the types of functions.
    pub functions: Items<u32>,
    pub tables: Items<Limits>,
    pub memories: Items<Limits>,
    pub globals: Items<GlobalType>,
    /// Those that are imported alone.
    pub imported_globals: Items<GlobalType>,
}

/// What the module has by number.
pub fn index_spaces(alloc: Global, m: &Module) -> Result<Spaces, AllocError>
    ensures { IfOk result (λ s. s ≡ spaces_of m.now) }
{
    Ok(Spaces {
        functions: function_space(alloc, m)?,
        tables: table_space(alloc, m)?,
        memories: memory_space(alloc, m)?,
        globals: global_space(alloc, m)?,
        imported_globals: imported_global_space(alloc, m)?,
    })
}

/// The numbers of functions' types.
fn function_space(alloc: Global, m: &Module) -> Result<Items<u32>, AllocError>
    ensures { IfOk result (λ s. s ≡ map type_number (functions m.now)) }
{
    let mut numbers = Vec::new(alloc);
    for import in m.imports.as_slice() {
        match import.desc {
            ImportDesc::Func(ty) => numbers.push(ty)?,
            ImportDesc::Table(_) | ImportDesc::Memory(_) | ImportDesc::Global(_) => {}
        }
    }
    for func in m.funcs.as_slice() {
        numbers.push(func.ty)?;
    }
    Ok(Items::from_vec(numbers))
}

/// The types of tables.
fn table_space(alloc: Global, m: &Module) -> Result<Items<Limits>, AllocError>
    ensures { IfOk result (λ s. s ≡ tables m.now) }
{
    let mut types = Vec::new(alloc);
    for import in m.imports.as_slice() {
        match import.desc {
            ImportDesc::Table(ty) => types.push(ty)?,
            ImportDesc::Func(_) | ImportDesc::Memory(_) | ImportDesc::Global(_) => {}
        }
    }
    for ty in m.tables.as_slice() {
        types.push(*ty)?;
    }
    Ok(Items::from_vec(types))
}

/// The types of memories.
fn memory_space(alloc: Global, m: &Module) -> Result<Items<Limits>, AllocError>
    ensures { IfOk result (λ s. s ≡ memories m.now) }
{
    let mut types = Vec::new(alloc);
    for import in m.imports.as_slice() {
        match import.desc {
            ImportDesc::Memory(ty) => types.push(ty)?,
            ImportDesc::Func(_) | ImportDesc::Table(_) | ImportDesc::Global(_) => {}
        }
    }
    for ty in m.memories.as_slice() {
        types.push(*ty)?;
    }
    Ok(Items::from_vec(types))
}

/// The types of globals that are imported.
fn imported_global_space(alloc: Global, m: &Module) -> Result<Items<GlobalType>, AllocError>
    ensures { IfOk result (λ s. s ≡ imported_globals m.now.imports) }
{
    let mut types = Vec::new(alloc);
    for import in m.imports.as_slice() {
        match import.desc {
            ImportDesc::Global(ty) => types.push(ty)?,
            ImportDesc::Func(_) | ImportDesc::Table(_) | ImportDesc::Memory(_) => {}
        }
    }
    Ok(Items::from_vec(types))
}

/// The types of globals.
fn global_space(alloc: Global, m: &Module) -> Result<Items<GlobalType>, AllocError>
    ensures { IfOk result (λ s. s ≡ globals m.now) }
{
    let mut types = Vec::new(alloc);
    for import in m.imports.as_slice() {
        match import.desc {
            ImportDesc::Global(ty) => types.push(ty)?,
            ImportDesc::Func(_) | ImportDesc::Table(_) | ImportDesc::Memory(_) => {}
        }
    }
    for global in m.globals.as_slice() {
        types.push(global.ty)?;
    }
    Ok(Items::from_vec(types))
}
