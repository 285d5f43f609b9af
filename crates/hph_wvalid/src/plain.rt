//! Instructions that hold no others (Core Specification 1.0, 3.3).
ghost use Rattle.std.specs.Prelude.{◌≡◌, IfOk};
ghost use Rattle.hph_wvalid.specs.Checking.{plain, obeyed};
ghost use Rattle.hph_wvalid.specs.Spaces.{context_of, IsNumbered};

use crate::control::{branch, branch_if, branch_table, call, call_indirect, function_return};
use crate::memory::check_access;
use crate::numeric::check_numeric;
use crate::operands::finish;
use crate::scope::Scope;
use crate::stack::Stack;
use crate::variables::check_variable;
use hph_wasm::Instr;
use std::alloc::AllocError;

/// The stack behind the instruction; none at a fault, and for those that hold others, `drop` and `select`.
pub fn check_plain(
    scope: &Scope<'_>,
    instr: &Instr,
    stack: Stack,
) -> Result<Option<Stack>, AllocError>
    requires numbered { IsNumbered scope.now }
    ensures { IfOk result (λ s. s ≡ obeyed (plain scope.now.«module».now (context_of scope.now) instr.now) stack) }
{
    match instr {
        Instr::Unreachable => Ok(finish(&[], stack)),
        Instr::Nop => Ok(Some(stack)),
        Instr::Br(label) => Ok(branch(scope, *label, stack)),
        Instr::BrIf(label) => branch_if(scope, *label, stack),
        Instr::BrTable(labels, label) => {
            Ok(branch_table(scope, labels.as_slice(), *label, stack))
        }
        Instr::Return => Ok(function_return(scope, stack)),
        Instr::Call(func) => call(scope, *func, stack),
        Instr::CallIndirect(number) => call_indirect(scope, *number, stack),
        Instr::LocalGet(_)
        | Instr::LocalSet(_)
        | Instr::LocalTee(_)
        | Instr::GlobalGet(_)
        | Instr::GlobalSet(_) => check_variable(scope, instr, stack),
        Instr::Load(_, _)
        | Instr::LoadNarrow(_, _)
        | Instr::Store(_, _)
        | Instr::StoreNarrow(_, _) => check_access(scope.spaces, instr, stack),
        _ => check_numeric(instr, stack),
    }
}
