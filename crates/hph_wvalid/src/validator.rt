//! Modules (Core Specification 1.0, 3.4.10).
ghost use Rattle.std.specs.Prelude.{◌≡◌, ℕ, ◌<◌, ◌^◌, length, ◌↔◌, IsTrue, IfOk, IfErr, OnOk, MatchResult};
ghost use Rattle.std.specs.List.{AllByRecursion};
ghost use Rattle.hph_wasm.specs.Functions.{functions};
ghost use Rattle.hph_wasm.specs.Rows.{list_size};
ghost use Rattle.hph_wasm.specs.ModuleGrammar.{IsShort};
ghost use Rattle.hph_wasm.specs.ModuleValidity.{IsValidOutside, IsValid};
ghost use Rattle.hph_wasm.specs.Faults.{IsFirstInvalid};
ghost use Rattle.hph_wvalid.specs.Spaces.{spaces_of};
ghost use Rattle.hph_wvalid.specs.Answers.{IsFaultIn, IsAt, IsNoMemory};

use crate::functions::first_invalid;
use crate::outside::{has_contents, has_types};
use crate::spaces::{Spaces, index_spaces};
use hph_wasm::{Checked, Module, first_faults};
use std::alloc::{AllocError, Global};

/// The number that stands for no function: the fault is outside code.
const OUTSIDE_CODE: u32 = 4294967295;

/// Why a module was not accepted.
#[derive(Clone, Copy, Debug, PartialEq, Eq)]
pub enum ValidFault {
    /// The first fault: the number of the function, imported ones first, and that of the opcode in its body, `else` and `end`
    /// among them. Faults outside code come first, as function 4294967295 and opcode 0.
    Invalid(u32, u32),
    NoMemory,
}

impl From<AllocError> for ValidFault {
    ghost use Rattle.std.specs.Prelude.{◌≡◌};
    ghost use Rattle.hph_wvalid.specs.declared.validator.ValidFault.TheVariants.{NoMemory};

    ghost from_gives = { λ _ fault. fault ≡ NoMemory };

    fn from(_error: AllocError) -> ValidFault {
        ValidFault::NoMemory
    }
}

/// Whether what stands outside code is valid.
fn is_valid_outside(alloc: Global, m: &Module, spaces: &Spaces) -> Result<bool, AllocError>
    requires numbered { spaces.now ≡ spaces_of m.now }
    ensures { IfOk result (λ valid. IsTrue valid ↔ IsValidOutside m.now) }
{
    if has_types(m, spaces) {
        has_contents(alloc, m, spaces)
    } else {
        Ok(false)
    }
}

/// Whether the module is valid; if not, its first fault. Functions and the opcodes of each body are to be few enough for a place.
pub fn decide(alloc: Global, m: &Module) -> Result<(), ValidFault>
    requires few { length (functions m.now) < 2 ^ 32 }
    requires short { AllByRecursion (λ func. list_size func.body < 2 ^ 32) m.now.funcs }
    ensures valid { OnOk result (IsValid m.now) }
    ensures invalid { IfErr result (IsFaultIn m.now) }
{
    let spaces = index_spaces(alloc, m)?;
    if is_valid_outside(alloc, m, &spaces)? {
        match first_invalid(alloc, m, &spaces)? {
            None => Ok(()),
            Some((func, instr)) => Err(ValidFault::Invalid(func, instr)),
        }
    } else {
        Err(ValidFault::Invalid(OUTSIDE_CODE, 0))
    }
}

/// The module, if it is valid (3.4.10); else the place of its first fault. Some spelling of the module, as one that it
/// was read from, is to have fewer than 2^32 bytes.
pub fn valid(alloc: Global, m: Module) -> Result<Checked, ValidFault>
    requires short { IsShort m }
    ensures same { IfOk result (λ checked. checked.«module» ≡ m) }
    ensures valid { OnOk result (IsValid m) }
    ensures invalid { IfErr result (IsFaultIn m) }
    // With enough memory no other answer is possible.
    ensures accepted { IsValid m → IfErr result IsNoMemory }
    ensures refused { (f k : ℕ) → IsFirstInvalid m f k → MatchResult result (λ _. ⊥) (IsAt f k) }
{
    first_faults();
    match decide(alloc, &m) {
        Ok(()) => Ok(Checked::new(m)),
        Err(fault) => Err(fault),
    }
}
