//! The functions of a module by number, found once before a run.
ghost use Rattle.std.specs.Prelude.{◌≡◌, ◌≤◌, Some, None, [], length, slice_get, IfOk, OnOk};
ghost use Rattle.hph_wasm.specs.ModuleValidity.{IsValid};
ghost use Rattle.hph_wasm.specs.Functions.{Defined, imported_functions, functions};
ghost use Rattle.hph_wasm.specs.Instantiation.{table_of};
ghost use Rattle.hph_wlink.specs.Linking.{IsRow, AreRows};
ghost use Rattle.hph_wstate.specs.Core.{count};
ghost use Rattle.hph_wmach.specs.Program.{CalleeFits, Tells};
ghost use Rattle.hph_wrunner.specs.Callees.{IsTyped, ImportFits, CalleesFit};

use hph_wasm::{Func, FuncType, Host, Import, ImportDesc, Module};
use hph_wmach::{Callee, HostFunction, OwnFunction, Program};
use sqlite_items::{Items, at};
use std::alloc::{AllocError, Global};

/// A type of the module, which is there.
fn type_at(m: &Module, number: u32) -> &FuncType
    requires { slice_get m.now.types number ≡ None → ⊥ }
    ensures { slice_get m.now.types number ≡ Some result.now }
{
    match m.types.get(number as usize) {
        Some(ty) => ty,
        None => unreachable!(),
    }
}

/// An imported function, which the host has by a row.
fn imported<'m, H: Host>(m: &'m Module, import: &Import, row: u16) -> Callee<'m>
    requires { IsRow H.meaning m.now import.now row }
    ensures { ImportFits H.meaning m.now import.now import.now.desc result }
{
    match import.desc {
        ImportDesc::Func(number) => Callee::OfHost(HostFunction {
            row,
            ty: type_at(m, number),
        }),
        ImportDesc::Table(_) | ImportDesc::Memory(_) | ImportDesc::Global(_) => unreachable!(),
    }
}

/// A function of the module's own.
fn own<'m, H: Host>(m: &'m Module, func: &'m Func) -> Callee<'m>
    requires { IsTyped m.now func.now }
    ensures { CalleeFits H.meaning m.now result (Defined func.now) }
{
    let ty = type_at(m, func.ty);
    Callee::Own(OwnFunction {
        func,
        ty,
        gives: gives(ty),
    })
}

/// Whether a function gives a value.
fn gives(ty: &FuncType) -> bool
    requires { length ty.now.results ≤ 1 }
    ensures { count result ≡ length ty.now.results }
{
    !ty.results.is_empty()
}

/// Adds the imported functions.
fn add_imported<'m, H: Host>(
    callees: &mut Items<Callee<'m>>,
    m: &'m Module,
    rows: &[u16],
) -> Result<(), AllocError>
    requires none { callees.old ≡ [] }
    requires rows { AreRows H.meaning m.now m.now.imports rows.now }
    ensures { OnOk result (CalleesFit H.meaning m.now callees.new (imported_functions m.now.imports)) }
{
    for (k, import) in m.imports.as_slice().iter().enumerate() {
        match at(rows, k) {
            Some(row) => callees.push(imported::<H>(m, import, *row))?,
            None => unreachable!(),
        }
    }
    Ok(())
}

/// Adds the functions of the module's own.
fn add_own<'m, H: Host>(callees: &mut Items<Callee<'m>>, m: &'m Module) -> Result<(), AllocError>
    requires valid { ∥ IsValid m.now ∥₁ }
    requires imported { CalleesFit H.meaning m.now callees.old (imported_functions m.now.imports) }
    ensures { OnOk result (CalleesFit H.meaning m.now callees.new (functions m.now)) }
{
    for func in m.funcs.as_slice() {
        callees.push(own::<H>(m, func))?;
    }
    Ok(())
}

/// The functions of a valid module in the order of their numbers, with the host's rows for its imports.
fn callees<'m, H: Host>(
    alloc: Global,
    m: &'m Module,
    rows: &[u16],
) -> Result<Items<Callee<'m>>, AllocError>
    requires valid { ∥ IsValid m.now ∥₁ }
    requires rows { AreRows H.meaning m.now m.now.imports rows.now }
    ensures { IfOk result (λ callees. CalleesFit H.meaning m.now callees (functions m.now)) }
{
    let mut callees = Items::new(alloc);
    add_imported::<H>(&mut callees, m, rows)?;
    add_own::<H>(&mut callees, m)?;
    Ok(callees)
}

/// What a run of a valid module looks up by number: its types, its functions, with the host's rows for its imports, and its table.
#[tactic(auto, using(crate::proofs::Added::entries_fit))]
pub fn program<'m, H: Host>(
    alloc: Global,
    m: &'m Module,
    rows: &[u16],
    table: Items<Option<u32>>,
) -> Result<Program<'m>, AllocError>
    requires valid { ∥ IsValid m.now ∥₁ }
    requires rows { AreRows H.meaning m.now m.now.imports rows.now }
    requires table { table ≡ table_of m.now }
    ensures { IfOk result (Tells H.meaning m.now) }
{
    let callees = callees::<H>(alloc, m, rows)?;
    Ok(Program {
        types: m.types.as_slice(),
        callees,
        table,
    })
}
