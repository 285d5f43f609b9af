//! `.` and `.=` (PHP manual, String Operators).
ghost use Rattle.std.specs.Prelude.{◌≡◌, ◌++◌, IfOk, OnOk, OnErr, Ok};
ghost use Rattle.hph_php.specs.Conversions.{and_then, to_text};
ghost use Rattle.hph_php.specs.Operators as php;
ghost use Rattle.hph_php.specs.Values.{Str};
ghost use Rattle.hph_value.specs.Shown.{value_of, Tells};
ghost use Rattle.hph_ops.specs.Writes.{Writes, WritesBy};

use hph_array::Bytes;
use hph_value::{Stop, Value, to_text};
use std::alloc::{AllocError, Global};

/// Puts the text of a value behind the text of a variable: in its own buffer where nothing else shares it, else in a copy. The
/// texts are made from left to right; `ObjectUse` for an object.
#[tactic(auto, using(crate::proofs::Shown::shown))]
pub fn join_to(alloc: Global, variable: &mut Value, value: &Value) -> Result<(), Stop>
    ensures { Writes result variable.old variable.new (php.joined (value_of variable.old) (value_of value.now)) }
{
    match variable {
        Value::Str(bytes) => join_text(alloc, bytes, value),
        other => join_as_text(alloc, other, value),
    }
}

/// The texts of two values joined, the first of which is given up: where nothing else shares its buffer, it goes on there.
/// The texts are made from left to right; `ObjectUse` for an object.
pub fn joined_onto(alloc: Global, x: Value, y: &Value) -> Result<Value, Stop>
    ensures { Tells result (php.joined (value_of x) (value_of y.now)) }
{
    let mut both = x;
    join_to(alloc, &mut both, y)?;
    Ok(both)
}

/// Puts the text of a value behind a string.
fn join_text(alloc: Global, bytes: &mut Bytes, value: &Value) -> Result<(), Stop>
    ensures { WritesBy Str result bytes.old bytes.new (and_then (to_text (value_of value.now)) (λ more. Ok (Str (bytes.old ++ more)))) }
{
    let more = to_text(alloc, value)?;
    extend(alloc, bytes, more.as_slice())?;
    Ok(())
}

/// Makes a variable the text of what it has, with the text of a value behind it.
#[tactic(auto, using(crate::proofs::Shown::shown))]
fn join_as_text(alloc: Global, variable: &mut Value, value: &Value) -> Result<(), Stop>
    ensures { Writes result variable.old variable.new (php.joined (value_of variable.old) (value_of value.now)) }
{
    let mut bytes = to_text(alloc, variable)?;
    join_text(alloc, &mut bytes, value)?;
    *variable = Value::Str(bytes);
    Ok(())
}

/// Puts bytes behind those of a string: in its own buffer where nothing else shares it, else in a copy.
fn extend(alloc: Global, bytes: &mut Bytes, more: &[u8]) -> Result<(), AllocError>
    ensures ok { OnOk result (bytes.new ≡ bytes.old ++ more.now) }
    ensures err { OnErr result (bytes.new ≡ bytes.old) }
{
    match bytes.get_mut() {
        Some(buffer) => buffer.extend_from_slice(more),
        None => extend_copy(alloc, bytes, more),
    }
}

/// Makes a string, which others share, a copy of it with bytes behind.
fn extend_copy(alloc: Global, bytes: &mut Bytes, more: &[u8]) -> Result<(), AllocError>
    ensures ok { OnOk result (bytes.new ≡ bytes.old ++ more.now) }
    ensures err { OnErr result (bytes.new ≡ bytes.old) }
{
    let both = joined_copy(alloc, bytes.as_slice(), more)?;
    *bytes = Bytes::new(alloc, both)?;
    Ok(())
}

/// A buffer with a copy of the bytes of two.
fn joined_copy(alloc: Global, first: &[u8], second: &[u8]) -> Result<Vec<u8>, AllocError>
    ensures { IfOk result (λ both. both.items ≡ first.now ++ second.now) }
{
    let mut both = Vec::with_capacity(alloc, first.len().saturating_add(second.len()))?;
    both.extend_from_slice(first)?;
    both.extend_from_slice(second)?;
    Ok(both)
}
