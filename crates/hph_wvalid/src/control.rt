//! Branches, returns and calls (Core Specification 1.0, 3.3.5).
ghost use Rattle.std.specs.Prelude.{◌≡◌, ◌∷◌, false, reverse, length, IfOk, Some, None, slice_get, nat_lt, if◌then◌else◌};
ghost use Rattle.hph_wasm.specs.declared.types.ValType.TheVariants.{I32};
ghost use Rattle.hph_wasm.specs.Choice.{if_some};
ghost use Rattle.hph_wasm.specs.Functions.{func_type, tables};
ghost use Rattle.hph_wasm.specs.Reduction.{same_types};
ghost use Rattle.hph_wvalid.specs.Checking.{From, Last, all_labels, obeyed};
ghost use Rattle.hph_wvalid.specs.Spaces.{context_of, IsNumbered};

use crate::operands::{apply, finish, pop_operands, push_results};
use crate::scope::Scope;
use crate::stack::{Stack, pop_type};
use hph_wasm::{FuncType, ValType};
use std::alloc::AllocError;

/// `br`.
pub fn branch(scope: &Scope<'_>, label: u32, stack: Stack) -> Option<Stack>
    ensures { result ≡ obeyed (if_some (slice_get (context_of scope.now).labels label) None (λ types. Some (Last types))) stack }
{
    match scope.label(label) {
        None => None,
        Some(types) => finish(types.as_slice(), stack),
    }
}

/// Takes an i32 on top of what a branch takes, which stays.
fn apply_condition(types: &[ValType], stack: Stack) -> Result<Option<Stack>, AllocError>
    ensures { IfOk result (λ s. s ≡ obeyed (Some (From (I32 ∷ types.now) types.now)) stack) }
{
    match pop_type(ValType::I32, stack) {
        None => Ok(None),
        Some(rest) => apply(types, types, rest),
    }
}

/// `br_if`.
pub fn branch_if(scope: &Scope<'_>, label: u32, stack: Stack) -> Result<Option<Stack>, AllocError>
    ensures { IfOk result (λ s. s ≡ obeyed (if_some (slice_get (context_of scope.now).labels label) None
        (λ types. Some (From (I32 ∷ types) types))) stack) }
{
    match scope.label(label) {
        None => Ok(None),
        Some(types) => apply_condition(types.as_slice(), stack),
    }
}

/// Whether a branch to the label takes these types.
fn takes_these(scope: &Scope<'_>, types: &[ValType], label: u32) -> bool
    ensures { result ≡ if_some (slice_get (context_of scope.now).labels label) false (same_types types.now) }
{
    match scope.label(label) {
        None => false,
        Some(others) => types == others.as_slice(),
    }
}

/// Whether branches to all of the labels take these types.
fn all_take_these(scope: &Scope<'_>, types: &[ValType], labels: &[u32]) -> bool
    ensures { result ≡ all_labels (context_of scope.now).labels types.now labels.now }
{
    for label in labels {
        if !takes_these(scope, types, *label) {
            return false;
        }
    }
    true
}

/// Takes the number of a label, and what a branch takes.
fn finish_at(types: &[ValType], stack: Stack) -> Option<Stack>
    ensures { result ≡ obeyed (Some (Last (I32 ∷ types.now))) stack }
{
    match pop_type(ValType::I32, stack) {
        None => None,
        Some(rest) => finish(types, rest),
    }
}

/// `br_table`.
pub fn branch_table(scope: &Scope<'_>, labels: &[u32], label: u32, stack: Stack) -> Option<Stack>
    ensures { result ≡ obeyed (if_some (slice_get (context_of scope.now).labels label) None
        (λ types. if all_labels (context_of scope.now).labels types labels.now then Some (Last (I32 ∷ types)) else None)) stack }
{
    match scope.label(label) {
        None => None,
        Some(types) => {
            if all_take_these(scope, types.as_slice(), labels) {
                finish_at(types.as_slice(), stack)
            } else {
                None
            }
        }
    }
}

/// `return`.
pub fn function_return(scope: &Scope<'_>, stack: Stack) -> Option<Stack>
    ensures { result ≡ obeyed (Some (Last (context_of scope.now).result)) stack }
{
    match pop_operands(scope.ty.results.as_slice(), stack) {
        None => None,
        Some(mut rest) => {
            rest.forget();
            Some(rest)
        }
    }
}

/// A call of a function of the type.
fn call_of(ty: &FuncType, stack: Stack) -> Result<Option<Stack>, AllocError>
    ensures { IfOk result (λ s. s ≡ obeyed (Some (From (reverse ty.now.params) (reverse ty.now.results))) stack) }
{
    match pop_operands(ty.params.as_slice(), stack) {
        None => Ok(None),
        Some(rest) => Ok(Some(push_results(ty.results.as_slice(), rest)?)),
    }
}

/// The same through the table.
fn indirect_call_of(ty: &FuncType, stack: Stack) -> Result<Option<Stack>, AllocError>
    ensures { IfOk result (λ s. s ≡ obeyed (Some (From (I32 ∷ reverse ty.now.params) (reverse ty.now.results))) stack) }
{
    match pop_type(ValType::I32, stack) {
        None => Ok(None),
        Some(rest) => call_of(ty, rest),
    }
}

/// `call`.
#[tactic(auto, using(crate::proofs::Labels::func_type_none, crate::proofs::Labels::func_type_some))]
pub fn call(scope: &Scope<'_>, func: u32, stack: Stack) -> Result<Option<Stack>, AllocError>
    requires numbered { IsNumbered scope.now }
    ensures { IfOk result (λ s. s ≡ obeyed (if_some (func_type scope.now.«module».now func) None
        (λ ty. Some (From (reverse ty.params) (reverse ty.results)))) stack) }
{
    match scope.spaces.functions.get(func as usize) {
        None => Ok(None),
        Some(number) => match scope.module.types.get(*number as usize) {
            None => Ok(None),
            Some(ty) => call_of(ty, stack),
        },
    }
}

/// `call_indirect`.
pub fn call_indirect(
    scope: &Scope<'_>,
    number: u32,
    stack: Stack,
) -> Result<Option<Stack>, AllocError>
    requires numbered { IsNumbered scope.now }
    ensures { IfOk result (λ s. s ≡ obeyed (if_some (slice_get scope.now.«module».now.types number) None
        (λ ty. if nat_lt 0 (length (tables scope.now.«module».now)) then Some (From (I32 ∷ reverse ty.params) (reverse ty.results)) else None)) stack) }
{
    match scope.module.types.get(number as usize) {
        None => Ok(None),
        Some(ty) => {
            if 0 < scope.spaces.tables.len() {
                indirect_call_of(ty, stack)
            } else {
                Ok(None)
            }
        }
    }
}
