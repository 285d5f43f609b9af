ghost use Rattle.std.specs.Prelude.{◌≡◌, Option, slice_get, codes};
ghost use Rattle.std.specs.Option.{option_map};
ghost use Rattle.std.specs.List.{AllByRecursion};
ghost use Rattle.hph_wasm.specs.Functions.{functions, type_number};
ghost use Rattle.hph_wasm.specs.Run.{function_of, exported_function};
ghost use Rattle.hph_wlink.specs.Linking.{MainTold, AreFunctions, type_of_desc, is_main_type};

use hph_wasm::{ExportDesc, FuncType, ImportDesc, Module};

/// The function that is exported as `main`, if it takes and gives nothing. All imports have to be functions.
pub fn main_function(m: &Module) -> Option<u32>
    requires { AreFunctions m.now.imports }
    ensures { MainTold m.now result }
{
    match exported_main(m) {
        None => None,
        Some(f) => match type_number(m, f) {
            None => None,
            Some(number) => match m.types.get(number as usize) {
                None => None,
                Some(ty) => {
                    if takes_and_gives_nothing(ty) {
                        Some(f)
                    } else {
                        None
                    }
                }
            },
        },
    }
}

/// Whether a function takes and gives nothing.
fn takes_and_gives_nothing(ty: &FuncType) -> bool
    ensures { result ≡ is_main_type ty.now }
{
    ty.params.is_empty() && ty.results.is_empty()
}

/// The function that is exported as `main`.
fn exported_main(m: &Module) -> Option<u32>
    ensures { result ≡ exported_function (codes "main") m.now.exports }
{
    for export in m.exports.as_slice() {
        if export.name.as_str().as_bytes() == b"main".as_slice() {
            return function_of(export.desc);
        }
    }
    None
}

/// The number of an exported function.
fn function_of(desc: ExportDesc) -> Option<u32>
    ensures { result ≡ function_of desc }
{
    match desc {
        ExportDesc::Func(f) => Some(f),
        ExportDesc::Table(_) | ExportDesc::Memory(_) | ExportDesc::Global(_) => None,
    }
}

/// The number of a function's type.
fn type_number(m: &Module, f: u32) -> Option<u32>
    requires { AreFunctions m.now.imports }
    ensures { result ≡ option_map type_number (slice_get (functions m.now) f) }
{
    let place = f as usize;
    let imported = m.imports.len();
    if place < imported {
        match m.imports.get(place) {
            None => None,
            Some(import) => type_of_desc(import.desc),
        }
    } else {
        match m.funcs.get(place - imported) {
            None => None,
            Some(func) => Some(func.ty),
        }
    }
}

/// The number of an imported function's type.
fn type_of_desc(desc: ImportDesc) -> Option<u32>
    ensures { result ≡ type_of_desc desc }
{
    match desc {
        ImportDesc::Func(number) => Some(number),
        ImportDesc::Table(_) | ImportDesc::Memory(_) | ImportDesc::Global(_) => None,
    }
}
