//! Values that instructions take from the stack and give (Core Specification 1.0, 3.3).
ghost use Rattle.std.specs.Prelude.{◌≡◌, reverse, IfOk, Some};
ghost use Rattle.hph_wvalid.specs.Checking.{From, Last, pops, push_all, obeyed};

use crate::stack::{Kind, Stack, pop_all, pop_type, push_each};
use hph_wasm::ValType;
use std::alloc::AllocError;

/// The stack behind an instruction that takes and gives values of these types, the top first; none where they are not there.
pub fn apply(
    takes: &[ValType],
    gives: &[ValType],
    stack: Stack,
) -> Result<Option<Stack>, AllocError>
    ensures { IfOk result (λ s. s ≡ obeyed (Some (From takes.now gives.now)) stack) }
{
    match pop_all(takes, stack) {
        None => Ok(None),
        Some(rest) => Ok(Some(push_each(gives, rest)?)),
    }
}

/// The same of an instruction that never goes on.
pub fn finish(takes: &[ValType], stack: Stack) -> Option<Stack>
    ensures { result ≡ obeyed (Some (Last takes.now)) stack }
{
    match pop_all(takes, stack) {
        None => None,
        Some(mut rest) => {
            rest.forget();
            Some(rest)
        }
    }
}

/// Takes values of the types, the last one on top. It stops where nothing more is known of the stack, so that a call in code that
/// is never reached costs no more than what was put there.
pub fn pop_operands(types: &[ValType], stack: Stack) -> Option<Stack>
    ensures { result ≡ pops (reverse types.now) stack }
{
    let mut stack = stack;
    let mut rest = types;
    while let [before @ .., last] = rest {
        if stack.is_free() && stack.is_empty() {
            return Some(stack);
        }
        stack = pop_type(*last, stack)?;
        rest = before;
    }
    Some(stack)
}

/// Gives values of the types, the last one on top.
pub fn push_results(types: &[ValType], stack: Stack) -> Result<Stack, AllocError>
    ensures { IfOk result (λ s. s ≡ push_all (reverse types.now) stack) }
{
    let mut stack = stack;
    for ty in types {
        stack.push(Kind::Known(*ty))?;
    }
    Ok(stack)
}
