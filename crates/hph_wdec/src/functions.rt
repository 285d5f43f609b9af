//! Functions: each has a type's number in one section and code in another (Core Specification 1.0, 5.5.6 and 5.5.13).
ghost use Rattle.std.specs.Prelude.{◌≡◌, length, map, IfOk};
ghost use Rattle.hph_wasm.specs.ModuleGrammar.{type_of_func, code_of_func};

use crate::code::FuncCode;
use hph_wasm::Func;
use sqlite_items::Items;
use std::alloc::{AllocError, Global};

/// The functions of these types and of this code.
pub fn functions(
    alloc: Global,
    types: Items<u32>,
    codes: Items<FuncCode>,
) -> Result<Items<Func>, AllocError>
    requires { length types ≡ length codes }
    ensures types { IfOk result (λ funcs. map type_of_func funcs ≡ types) }
    ensures codes { IfOk result (λ funcs. map code_of_func funcs ≡ codes) }
{
    let mut types = types;
    let mut codes = codes;
    let mut funcs = Vec::new(alloc);
    while let Some((locals, body)) = codes.pop() {
        if let Some(ty) = types.pop() {
            funcs.push(Func { ty, locals, body })?;
        }
    }
    funcs.reverse();
    Ok(Items::from_vec(funcs))
}
