//! Reads and writes of variables (Core Specification 1.0, 3.3.3).
ghost use Rattle.std.specs.Prelude.{◌≡◌, ◌∷◌, [], IfOk, Some, None, slice_get, if◌then◌else◌};
ghost use Rattle.hph_wasm.specs.Choice.{if_some};
ghost use Rattle.hph_wvalid.specs.Checking.{From, variable_signature, obeyed};
ghost use Rattle.hph_wvalid.specs.Spaces.{context_of};

use crate::operands::apply;
use crate::scope::Scope;
use crate::spaces::Spaces;
use crate::stack::Stack;
use hph_wasm::{GlobalType, Instr};
use std::alloc::AllocError;

/// `local.get`.
fn local_get(scope: &Scope<'_>, local: u32, stack: Stack) -> Result<Option<Stack>, AllocError>
    ensures { IfOk result (λ s. s ≡ obeyed (if_some (slice_get (context_of scope.now).locals local) None (λ ty. Some (From [] (ty ∷ [])))) stack) }
{
    match scope.local(local) {
        None => Ok(None),
        Some(ty) => apply(&[], &[ty], stack),
    }
}

/// `local.set`.
fn local_set(scope: &Scope<'_>, local: u32, stack: Stack) -> Result<Option<Stack>, AllocError>
    ensures { IfOk result (λ s. s ≡ obeyed (if_some (slice_get (context_of scope.now).locals local) None (λ ty. Some (From (ty ∷ []) []))) stack) }
{
    match scope.local(local) {
        None => Ok(None),
        Some(ty) => apply(&[ty], &[], stack),
    }
}

/// `local.tee`.
fn local_tee(scope: &Scope<'_>, local: u32, stack: Stack) -> Result<Option<Stack>, AllocError>
    ensures { IfOk result (λ s. s ≡ obeyed (if_some (slice_get (context_of scope.now).locals local) None (λ ty. Some (From (ty ∷ []) (ty ∷ [])))) stack) }
{
    match scope.local(local) {
        None => Ok(None),
        Some(ty) => apply(&[ty], &[ty], stack),
    }
}

/// The type of the global.
fn global_type(spaces: &Spaces, global: u32) -> Option<GlobalType>
    ensures { result ≡ slice_get spaces.now.globals global }
{
    spaces.globals.get(global as usize).copied()
}

/// `global.get`.
fn global_get(spaces: &Spaces, global: u32, stack: Stack) -> Result<Option<Stack>, AllocError>
    ensures { IfOk result (λ s. s ≡ obeyed (if_some (slice_get spaces.now.globals global) None (λ ty. Some (From [] (ty.value ∷ [])))) stack) }
{
    match global_type(spaces, global) {
        None => Ok(None),
        Some(ty) => apply(&[], &[ty.value], stack),
    }
}

/// `global.set`.
fn global_set(spaces: &Spaces, global: u32, stack: Stack) -> Result<Option<Stack>, AllocError>
    ensures { IfOk result (λ s. s ≡ obeyed (if_some (slice_get spaces.now.globals global) None
        (λ ty. if ty.mutable then Some (From (ty.value ∷ []) []) else None)) stack) }
{
    match global_type(spaces, global) {
        None => Ok(None),
        Some(ty) => {
            if ty.mutable {
                apply(&[ty.value], &[], stack)
            } else {
                Ok(None)
            }
        }
    }
}

/// The stack behind a read or a write of a variable; none at a fault, and for other instructions.
pub fn check_variable(
    scope: &Scope<'_>,
    instr: &Instr,
    stack: Stack,
) -> Result<Option<Stack>, AllocError>
    ensures { IfOk result (λ s. s ≡ obeyed (variable_signature scope.now.spaces.now.globals (context_of scope.now).locals instr.now) stack) }
{
    match instr {
        Instr::LocalGet(local) => local_get(scope, *local, stack),
        Instr::LocalSet(local) => local_set(scope, *local, stack),
        Instr::LocalTee(local) => local_tee(scope, *local, stack),
        Instr::GlobalGet(global) => global_get(scope.spaces, *global, stack),
        Instr::GlobalSet(global) => global_set(scope.spaces, *global, stack),
        _ => Ok(None),
    }
}
