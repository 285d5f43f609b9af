//! Constant expressions (Core Specification 1.0, 3.3.7.2).
ghost use Rattle.std.specs.Prelude.{◌≡◌, [], ◌∷◌, IfOk};
ghost use Rattle.hph_wasm.specs.Values.{number_of, value_of};
ghost use Rattle.hph_wasm.specs.Instantiation.{constant_value, initial_value, globals_at_start, offset_of};

use hph_wasm::{Global as Variable, Instr, Module, ValType, Value};
use sqlite_items::{Items, at};
use std::alloc::{AllocError, Global};

/// The value of a constant instruction, where globals have these values.
fn value_of(globals: &[Value], i: &Instr) -> Option<Value>
    ensures { result ≡ constant_value globals.now (i.now ∷ []) }
{
    match i {
        Instr::I32Const(z) => Some(Value::I32(z.cast_unsigned())),
        Instr::I64Const(z) => Some(Value::I64(z.cast_unsigned())),
        Instr::GlobalGet(x) => at(globals, *x as usize).copied(),
        _ => None,
    }
}

/// The value of a constant expression.
fn constant_value(globals: &[Value], code: &[Instr]) -> Option<Value>
    ensures { result ≡ constant_value globals.now code.now }
{
    match code {
        [i] => value_of(globals, i),
        _ => None,
    }
}

/// Zero, as a value of a type.
fn zero(ty: ValType) -> Value
    ensures { result ≡ value_of ty 0 }
{
    match ty {
        ValType::I32 => Value::I32(0),
        ValType::I64 => Value::I64(0),
    }
}

/// What a global begins with.
fn initial_value(global: &Variable) -> Value
    ensures { result ≡ initial_value global.now }
{
    match constant_value(&[], global.init.as_slice()) {
        Some(value) => value,
        None => zero(global.ty.value),
    }
}

/// What the globals begin with.
pub fn globals_at_start(alloc: Global, m: &Module) -> Result<Items<Value>, AllocError>
    ensures { IfOk result (λ globals. globals ≡ globals_at_start m.now) }
{
    let mut globals = Items::new(alloc);
    for global in m.globals.as_slice() {
        globals.push(initial_value(global))?;
    }
    Ok(globals)
}

/// The number of a value's bits.
fn number_of(value: Value) -> u64
    ensures { result ≡ number_of value }
{
    match value {
        Value::I32(n) => u64::from(n),
        Value::I64(n) => n,
    }
}

/// The value of an offset.
pub fn offset_of(globals: &[Value], code: &[Instr]) -> u64
    ensures { result ≡ offset_of globals.now code.now }
{
    match constant_value(globals, code) {
        Some(value) => number_of(value),
        None => 0,
    }
}
