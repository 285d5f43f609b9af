//! Operands that are taken off the stack.
ghost use Rattle.hph_wstate.specs.Machine.{core};
ghost use Rattle.hph_wstate.specs.Changes.{Popped};

use crate::machine::Machine;
use hph_wasm::{ValType, Value};

/// The number of the i32 on top, which is taken.
pub fn pop_i32(machine: &mut Machine<'_>) -> Option<u32>
    ensures { Popped ValType.I32 (core machine.old) result (core machine.new) }
{
    match machine.pop() {
        Some(Value::I32(n)) => Some(n),
        _ => None,
    }
}

/// The number of the i64 on top, which is taken.
pub fn pop_i64(machine: &mut Machine<'_>) -> Option<u64>
    ensures { Popped ValType.I64 (core machine.old) result (core machine.new) }
{
    match machine.pop() {
        Some(Value::I64(n)) => Some(n),
        _ => None,
    }
}
