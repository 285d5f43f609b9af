//! The function section (Core Specification 1.0, 5.5.6).
ghost use Rattle.std.specs.Prelude.{◌≡◌, map, IfOk};
ghost use Rattle.hph_wasm.specs.ModuleGrammar.{type_of_func};

use hph_wasm::Func;
use std::alloc::{AllocError, Global};

/// The number of each function's type.
pub fn type_indices(alloc: Global, funcs: &[Func]) -> Result<Vec<u32>, AllocError>
    ensures { IfOk result (λ indices. indices.items ≡ map type_of_func funcs.now) }
{
    let mut indices = Vec::new(alloc);
    for func in funcs {
        indices.push(func.ty)?;
    }
    Ok(indices)
}
