//! Functions in their order (Core Specification 1.0, 3.4.1).
ghost use Rattle.std.specs.Prelude.{◌≡◌, ◌+◌, ◌<◌, ◌^◌, length, IfOk, MatchOption};
ghost use Rattle.std.specs.List.{AllByRecursion};
ghost use Rattle.hph_wasm.specs.Functions.{functions};
ghost use Rattle.hph_wasm.specs.Rows.{list_size};
ghost use Rattle.hph_wasm.specs.Validity.{IsFunc};
ghost use Rattle.hph_wasm.specs.ModuleValidity.{IsValidOutside};
ghost use Rattle.hph_wasm.specs.Faults.{IsFirstInvalid};
ghost use Rattle.hph_wvalid.specs.Functions.{IsFaultOf};
ghost use Rattle.hph_wvalid.specs.Spaces.{spaces_of};

use crate::body::first_fault;
use crate::spaces::Spaces;
use hph_wasm::{Func, Module};
use std::alloc::{AllocError, Global};

/// The number of the first opcode at fault in the function's body; none where it is valid.
fn function_fault(
    alloc: Global,
    m: &Module,
    spaces: &Spaces,
    func: &Func,
) -> Result<Option<usize>, AllocError>
    requires numbered { spaces.now ≡ spaces_of m.now }
    requires typed { func.now.ty < length m.now.types }
    requires short { list_size func.now.body < 2 ^ 32 }
    ensures { IfOk result (λ fault. MatchOption fault (IsFunc m.now func.now) (λ k. IsFaultOf m.now func.now k)) }
{
    let types = m.types.as_slice();
    first_fault(alloc, m, spaces, &types[func.ty as usize], func)
}

/// The first fault inside code: the number of the function, imported ones first, and that of the opcode; none where all is valid.
#[tactic(auto, using(crate::proofs::Spellings::functions_counted))]
pub fn first_invalid(
    alloc: Global,
    m: &Module,
    spaces: &Spaces,
) -> Result<Option<(u32, u32)>, AllocError>
    requires numbered { spaces.now ≡ spaces_of m.now }
    requires outside { IsValidOutside m.now }
    requires few { length (functions m.now) < 2 ^ 32 }
    requires short { AllByRecursion (λ func. list_size func.body < 2 ^ 32) m.now.funcs }
    ensures { IfOk result (λ fault. MatchOption fault (AllByRecursion (IsFunc m.now) m.now.funcs) (λ place. IsFirstInvalid m.now place.0 place.1)) }
{
    let funcs = m.funcs.as_slice();
    let imported = spaces.functions.len() - funcs.len();
    for n in 0..funcs.len() {
        match function_fault(alloc, m, spaces, &funcs[n])? {
            None => {}
            Some(instr) => return Ok(Some(((imported + n) as u32, instr as u32))),
        }
    }
    Ok(None)
}
