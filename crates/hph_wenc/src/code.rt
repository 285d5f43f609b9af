//! The code section (Core Specification 1.0, 5.5.13).
ghost use Rattle.std.specs.Prelude.{◌≡◌, ◌<◌, ◌^◌, ◌++◌, length, map, flat_map, IfOk, OnOk};
ghost use Rattle.std.specs.List.{AllByRecursion};
ghost use Rattle.hph_wasm.specs.Spelling.{code_bytes};
ghost use Rattle.hph_wenc.specs.Code.{content_of};
ghost use Rattle.hph_wenc.specs.Fits.{CodeFits};

use crate::instructions::put_expression;
use crate::locals::local_runs;
use crate::put::put_vector;
use hph_wasm::Func;
use sqlite_items::Items;
use std::alloc::{AllocError, Global};

/// The bytes of each function's locals and body, whose size stands before them in the section.
pub fn codes(alloc: Global, funcs: &[Func]) -> Result<Vec<Items<u8>>, AllocError>
    requires few_locals { AllByRecursion (λ f. length f.locals < 2 ^ 32) funcs.now }
    requires short { length (flat_map code_bytes funcs.now) < 2 ^ 32 }
    ensures contents { IfOk result (λ codes. codes.items ≡ map content_of funcs.now) }
    ensures fit { OnOk result (AllByRecursion CodeFits funcs.now) }
{
    let mut codes = Vec::new(alloc);
    for func in funcs {
        codes.push(code(alloc, func)?)?;
    }
    Ok(codes)
}

/// The bytes of a function's locals and body.
pub fn code(alloc: Global, func: &Func) -> Result<Items<u8>, AllocError>
    requires few_locals { length func.now.locals < 2 ^ 32 }
    requires short { length (content_of func.now) < 2 ^ 32 }
    ensures content { IfOk result (λ content. content ≡ content_of func.now) }
    ensures fit { OnOk result (CodeFits func.now) }
{
    let runs = local_runs(alloc, &func.locals)?;
    let mut content = Vec::new(alloc);
    put_vector(&mut content, &runs)?;
    put_expression(&mut content, func.body.as_slice())?;
    Ok(Items::from_vec(content))
}
