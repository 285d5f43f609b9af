//! Numeric instructions (Core Specification 1.0, 4.4.1).
ghost use Rattle.std.specs.Prelude.{◌≡◌, ◌∷◌};
ghost use Rattle.hph_wasm.specs.Integers.{truth};
ghost use Rattle.hph_wstate.specs.Machine.{core};
ghost use Rattle.hph_wmach.specs.Reached.{Pushes, Steps};

use crate::next::Next;
use hph_integers::{
    binary_i32, binary_i64, comparison_i32, comparison_i64, extended_i64, unary_i32, unary_i64,
    wrapped_i32,
};
use hph_wasm::{Binary, Comparison, Host, Instr, Sign, Unary, ValType, Value};
use hph_wstate::{Machine, pop_i32, pop_i64};

/// Puts a value on top.
pub fn put(machine: &mut Machine<'_>, value: Value) -> Next
    ensures { Pushes value (core machine.old) result (core machine.new) }
{
    match machine.push(value) {
        Ok(()) => Next::Goes,
        Err(_) => Next::NoMemory,
    }
}

/// A truth value as a number.
fn truth_of(holds: bool) -> u32
    ensures { result ≡ truth holds }
{
    if holds { 1 } else { 0 }
}

/// `i32.eqz`.
fn is_zero_i32<H: Host>(machine: &mut Machine<'_>) -> Next
    ensures { Steps H.meaning (Instr.Eqz ValType.I32) (core machine.old) result (core machine.new) }
{
    match pop_i32(machine) {
        None => Next::Traps,
        Some(n) => put(machine, Value::I32(truth_of(n == 0))),
    }
}

/// `i64.eqz`.
fn is_zero_i64<H: Host>(machine: &mut Machine<'_>) -> Next
    ensures { Steps H.meaning (Instr.Eqz ValType.I64) (core machine.old) result (core machine.new) }
{
    match pop_i64(machine) {
        None => Next::Traps,
        Some(n) => put(machine, Value::I32(truth_of(n == 0))),
    }
}

/// `eqz`.
pub fn is_zero<H: Host>(machine: &mut Machine<'_>, ty: ValType) -> Next
    ensures { Steps H.meaning (Instr.Eqz ty) (core machine.old) result (core machine.new) }
{
    match ty {
        ValType::I32 => is_zero_i32::<H>(machine),
        ValType::I64 => is_zero_i64::<H>(machine),
    }
}

/// A comparison of i32.
fn compare_i32<H: Host>(machine: &mut Machine<'_>, o: Comparison) -> Next
    ensures { Steps H.meaning (Instr.Compare ValType.I32 o) (core machine.old) result (core machine.new) }
{
    let Some(j) = pop_i32(machine) else {
        return Next::Traps;
    };
    match pop_i32(machine) {
        None => Next::Traps,
        Some(i) => put(machine, Value::I32(truth_of(comparison_i32(o, i, j)))),
    }
}

/// A comparison of i64.
fn compare_i64<H: Host>(machine: &mut Machine<'_>, o: Comparison) -> Next
    ensures { Steps H.meaning (Instr.Compare ValType.I64 o) (core machine.old) result (core machine.new) }
{
    let Some(j) = pop_i64(machine) else {
        return Next::Traps;
    };
    match pop_i64(machine) {
        None => Next::Traps,
        Some(i) => put(machine, Value::I32(truth_of(comparison_i64(o, i, j)))),
    }
}

/// A comparison.
pub fn compare<H: Host>(machine: &mut Machine<'_>, ty: ValType, o: Comparison) -> Next
    ensures { Steps H.meaning (Instr.Compare ty o) (core machine.old) result (core machine.new) }
{
    match ty {
        ValType::I32 => compare_i32::<H>(machine, o),
        ValType::I64 => compare_i64::<H>(machine, o),
    }
}

/// An operator on one i32.
fn operate_i32<H: Host>(machine: &mut Machine<'_>, o: Unary) -> Next
    ensures { Steps H.meaning (Instr.Unary ValType.I32 o) (core machine.old) result (core machine.new) }
{
    match pop_i32(machine) {
        None => Next::Traps,
        Some(n) => put(machine, Value::I32(unary_i32(o, n))),
    }
}

/// An operator on one i64.
fn operate_i64<H: Host>(machine: &mut Machine<'_>, o: Unary) -> Next
    ensures { Steps H.meaning (Instr.Unary ValType.I64 o) (core machine.old) result (core machine.new) }
{
    match pop_i64(machine) {
        None => Next::Traps,
        Some(n) => put(machine, Value::I64(unary_i64(o, n))),
    }
}

/// An operator on one number.
pub fn operate<H: Host>(machine: &mut Machine<'_>, ty: ValType, o: Unary) -> Next
    ensures { Steps H.meaning (Instr.Unary ty o) (core machine.old) result (core machine.new) }
{
    match ty {
        ValType::I32 => operate_i32::<H>(machine, o),
        ValType::I64 => operate_i64::<H>(machine, o),
    }
}

/// An operator on two i32.
fn combine_i32<H: Host>(machine: &mut Machine<'_>, o: Binary) -> Next
    ensures { Steps H.meaning (Instr.Binary ValType.I32 o) (core machine.old) result (core machine.new) }
{
    let Some(j) = pop_i32(machine) else {
        return Next::Traps;
    };
    let Some(i) = pop_i32(machine) else {
        return Next::Traps;
    };
    match binary_i32(o, i, j) {
        None => Next::Traps,
        Some(n) => put(machine, Value::I32(n)),
    }
}

/// An operator on two i64.
fn combine_i64<H: Host>(machine: &mut Machine<'_>, o: Binary) -> Next
    ensures { Steps H.meaning (Instr.Binary ValType.I64 o) (core machine.old) result (core machine.new) }
{
    let Some(j) = pop_i64(machine) else {
        return Next::Traps;
    };
    let Some(i) = pop_i64(machine) else {
        return Next::Traps;
    };
    match binary_i64(o, i, j) {
        None => Next::Traps,
        Some(n) => put(machine, Value::I64(n)),
    }
}

/// An operator on two numbers.
pub fn combine<H: Host>(machine: &mut Machine<'_>, ty: ValType, o: Binary) -> Next
    ensures { Steps H.meaning (Instr.Binary ty o) (core machine.old) result (core machine.new) }
{
    match ty {
        ValType::I32 => combine_i32::<H>(machine, o),
        ValType::I64 => combine_i64::<H>(machine, o),
    }
}

/// `i32.wrap_i64`.
pub fn wrap<H: Host>(machine: &mut Machine<'_>) -> Next
    ensures { Steps H.meaning Instr.Wrap (core machine.old) result (core machine.new) }
{
    match pop_i64(machine) {
        None => Next::Traps,
        Some(n) => put(machine, Value::I32(wrapped_i32(n))),
    }
}

/// `i64.extend_i32_s` and `i64.extend_i32_u`.
pub fn extend<H: Host>(machine: &mut Machine<'_>, sign: Sign) -> Next
    ensures { Steps H.meaning (Instr.Extend sign) (core machine.old) result (core machine.new) }
{
    match pop_i32(machine) {
        None => Next::Traps,
        Some(n) => put(machine, Value::I64(extended_i64(sign, 32, u64::from(n)))),
    }
}
