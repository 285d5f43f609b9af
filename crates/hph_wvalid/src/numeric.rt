//! Instructions on numbers (Core Specification 1.0, 3.3.1).
ghost use Rattle.std.specs.Prelude.{◌≡◌, IfOk};
ghost use Rattle.hph_wvalid.specs.Checking.{numeric_signature, obeyed};

use crate::operands::apply;
use crate::stack::Stack;
use hph_wasm::{Instr, ValType};
use std::alloc::AllocError;

/// The stack behind an instruction on numbers; none at a fault, and for other instructions.
pub fn check_numeric(instr: &Instr, stack: Stack) -> Result<Option<Stack>, AllocError>
    ensures { IfOk result (λ s. s ≡ obeyed (numeric_signature instr.now) stack) }
{
    match instr {
        Instr::I32Const(_) => apply(&[], &[ValType::I32], stack),
        Instr::I64Const(_) => apply(&[], &[ValType::I64], stack),
        Instr::Eqz(ty) => apply(&[*ty], &[ValType::I32], stack),
        Instr::Compare(ty, _) => apply(&[*ty, *ty], &[ValType::I32], stack),
        Instr::Unary(ty, _) => apply(&[*ty], &[*ty], stack),
        Instr::Binary(ty, _) => apply(&[*ty, *ty], &[*ty], stack),
        Instr::Wrap => apply(&[ValType::I64], &[ValType::I32], stack),
        Instr::Extend(_) => apply(&[ValType::I32], &[ValType::I64], stack),
        _ => Ok(None),
    }
}
