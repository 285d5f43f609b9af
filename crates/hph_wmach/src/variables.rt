//! Parametric and variable instructions, and constants (Core Specification 1.0, 4.4.1 to 4.4.3).
ghost use Rattle.hph_wstate.specs.Machine.{core};
ghost use Rattle.hph_wmach.specs.Reached.{Steps};

use crate::next::Next;
use hph_wasm::{Host, Instr, Value};
use hph_wstate::{Machine, pop_i32};

/// `i32.const`.
pub fn const_i32<H: Host>(machine: &mut Machine<'_>, z: &i32) -> Next
    ensures { Steps H.meaning (Instr.I32Const z.now) (core machine.old) result (core machine.new) }
{
    match machine.push(Value::I32(z.cast_unsigned())) {
        Ok(()) => Next::Goes,
        Err(_) => Next::NoMemory,
    }
}

/// `i64.const`.
pub fn const_i64<H: Host>(machine: &mut Machine<'_>, z: &i64) -> Next
    ensures { Steps H.meaning (Instr.I64Const z.now) (core machine.old) result (core machine.new) }
{
    match machine.push(Value::I64(z.cast_unsigned())) {
        Ok(()) => Next::Goes,
        Err(_) => Next::NoMemory,
    }
}

/// `drop`.
pub fn drop_value<H: Host>(machine: &mut Machine<'_>) -> Next
    ensures { Steps H.meaning Instr.Drop (core machine.old) result (core machine.new) }
{
    match machine.pop() {
        None => Next::Traps,
        Some(_) => Next::Goes,
    }
}

/// `select`.
pub fn select<H: Host>(machine: &mut Machine<'_>) -> Next
    ensures { Steps H.meaning Instr.Select (core machine.old) result (core machine.new) }
{
    let Some(n) = pop_i32(machine) else {
        return Next::Traps;
    };
    let Some(upper) = machine.pop() else {
        return Next::Traps;
    };
    let Some(lower) = machine.pop() else {
        return Next::Traps;
    };
    match machine.push(if n == 0 { upper } else { lower }) {
        Ok(()) => Next::Goes,
        Err(_) => Next::NoMemory,
    }
}

/// `local.get`.
pub fn get_local<H: Host>(machine: &mut Machine<'_>, x: u32) -> Next
    ensures { Steps H.meaning (Instr.LocalGet x) (core machine.old) result (core machine.new) }
{
    match machine.local(x) {
        None => Next::Traps,
        Some(value) => match machine.push(value) {
            Ok(()) => Next::Goes,
            Err(_) => Next::NoMemory,
        },
    }
}

/// `local.set`.
pub fn set_local<H: Host>(machine: &mut Machine<'_>, x: u32) -> Next
    ensures { Steps H.meaning (Instr.LocalSet x) (core machine.old) result (core machine.new) }
{
    match machine.pop() {
        None => Next::Traps,
        Some(value) => match machine.set_local(x, value) {
            Ok(true) => Next::Goes,
            Ok(false) => Next::Traps,
            Err(_) => Next::NoMemory,
        },
    }
}

/// `local.tee`.
pub fn tee_local<H: Host>(machine: &mut Machine<'_>, x: u32) -> Next
    ensures { Steps H.meaning (Instr.LocalTee x) (core machine.old) result (core machine.new) }
{
    match machine.top() {
        None => Next::Traps,
        Some(value) => match machine.set_local(x, value) {
            Ok(true) => Next::Goes,
            Ok(false) => Next::Traps,
            Err(_) => Next::NoMemory,
        },
    }
}

/// `global.get`.
pub fn get_global<H: Host>(machine: &mut Machine<'_>, x: u32) -> Next
    ensures { Steps H.meaning (Instr.GlobalGet x) (core machine.old) result (core machine.new) }
{
    match machine.global(x) {
        None => Next::Traps,
        Some(value) => match machine.push(value) {
            Ok(()) => Next::Goes,
            Err(_) => Next::NoMemory,
        },
    }
}

/// `global.set`.
pub fn set_global<H: Host>(machine: &mut Machine<'_>, x: u32) -> Next
    ensures { Steps H.meaning (Instr.GlobalSet x) (core machine.old) result (core machine.new) }
{
    match machine.pop() {
        None => Next::Traps,
        Some(value) => {
            if machine.set_global(x, value) {
                Next::Goes
            } else {
                Next::Traps
            }
        }
    }
}

/// `nop`.
pub fn do_nothing<H: Host>(_machine: &mut Machine<'_>) -> Next
    ensures { Steps H.meaning Instr.Nop (core _machine.old) result (core _machine.new) }
{
    Next::Goes
}

/// `unreachable`.
pub fn trap<H: Host>(_machine: &mut Machine<'_>) -> Next
    ensures { Steps H.meaning Instr.Unreachable (core _machine.old) result (core _machine.new) }
{
    Next::Traps
}
