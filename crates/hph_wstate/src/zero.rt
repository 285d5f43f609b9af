//! The values that locals begin with.
ghost use Rattle.std.specs.Prelude.{◌≡◌, ◌++◌, ◌≤◌, [], ◌∷◌, length, take, OnOk};
ghost use Rattle.hph_wasm.specs.Values.{value_of, zero_values};

use hph_wasm::{Locals, ValType, Value};
use sqlite_items::Items;
use std::alloc::AllocError;

/// The first value of a type.
pub fn zero(ty: ValType) -> Value
    ensures { result ≡ value_of ty 0 }
{
    match ty {
        ValType::I32 => Value::I32(0),
        ValType::I64 => Value::I64(0),
    }
}

/// Adds a zero for each of the first locals.
pub fn push_zeros(values: &mut Items<Value>, locals: &Locals, count: u32) -> Result<(), AllocError>
    requires { count ≤ length locals.now }
    ensures { OnOk result (values.new ≡ values.old ++ zero_values (take count locals.now)) }
{
    for k in 0..count {
        match locals.get(k) {
            Some(ty) => values.push(zero(ty))?,
            None => return Err(AllocError),
        }
    }
    Ok(())
}
