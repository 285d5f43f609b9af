//! Conversions of values (PHP manual, Type Juggling, and the conversions of each type).
ghost use Rattle.std.specs.Prelude.{◌≡◌, ◌||◌, [], IfOk, Ok, bytes_eq, codes};
ghost use Rattle.std.specs.Fmt.{signed_decimal};
ghost use Rattle.hph_array.specs.Array.{append};
ghost use Rattle.hph_php.specs.Values.{array_value, empty_array};
ghost use Rattle.hph_php.specs.Conversions as php;
ghost use Rattle.hph_value.specs.Shown.{value_of, Tells, TellsBy};
ghost use Rattle.hph_value.specs.Numerics.{numeric_seen};

use crate::numeric::{Numeric, leading_number, numeric_of};
use crate::value::{Stop, Value};
use hph_array::{Bytes, Key, OrdMap};
use hph_php::Fatal;
use itoa::Buffer;
use std::alloc::{AllocError, Global};

/// Whether a value is true: false are null, false, 0, the strings `` and `0`, and an array without pairs.
#[tactic(auto, using(crate::proofs::Shown::shown))]
pub fn to_bool(value: &Value) -> bool
    ensures { result ≡ php.to_bool (value_of value.now) }
{
    match value {
        Value::Null => false,
        Value::Bool(truth) => *truth,
        Value::Int(number) => *number != 0,
        Value::Str(bytes) => !is_false_text(bytes.as_slice()),
        Value::Arr(array) => !array.get().map.is_empty(),
        Value::Obj(_) => true,
    }
}

/// Whether a string is empty or `0`.
fn is_false_text(bytes: &[u8]) -> bool
    ensures { result ≡ (bytes_eq bytes.now [] || bytes_eq bytes.now (codes "0")) }
{
    bytes.is_empty() || bytes == b"0".as_slice()
}

/// 1 for true, 0 for false.
fn int_of_bool(truth: bool) -> i64
    ensures { result ≡ php.int_of_bool truth }
{
    if truth { 1 } else { 0 }
}

/// The int of a value. A string is the number that stands first in it, or 0 where there is none: `Float` where PHP has a
/// float. `ObjectUse` for an object.
#[tactic(auto, using(crate::proofs::Shown::shown))]
pub fn to_int(value: &Value) -> Result<i64, Fatal>
    ensures { result ≡ php.to_int (value_of value.now) }
{
    match value {
        Value::Null => Ok(0),
        Value::Bool(truth) => Ok(int_of_bool(*truth)),
        Value::Int(number) => Ok(*number),
        Value::Str(bytes) => int_of_leading(leading_number(bytes.as_slice())),
        Value::Arr(array) => counted(!array.get().map.is_empty()),
        Value::Obj(_) => Err(Fatal::ObjectUse),
    }
}

/// The int of an array, by whether it has pairs.
fn counted(has_pairs: bool) -> Result<i64, Fatal>
    ensures { result ≡ Ok (php.int_of_bool has_pairs) }
{
    Ok(int_of_bool(has_pairs))
}

/// The int of a string that begins with this number.
fn int_of_leading(number: Numeric) -> Result<i64, Fatal>
    ensures { result ≡ php.int_of_leading (numeric_seen number) }
{
    match number {
        Numeric::NoNumber => Ok(0),
        Numeric::Whole(number) => Ok(number),
        Numeric::FloatLike => Err(Fatal::Float),
    }
}

/// The number of a value, for arithmetic. Of the strings only those that are numbers as a whole have one: `BadOperand` for
/// others, arrays and objects, `Float` where PHP has a float.
#[tactic(auto, using(crate::proofs::Shown::shown))]
pub fn number_of(value: &Value) -> Result<i64, Fatal>
    ensures { result ≡ php.number_of (value_of value.now) }
{
    match value {
        Value::Null => Ok(0),
        Value::Bool(truth) => Ok(int_of_bool(*truth)),
        Value::Int(number) => Ok(*number),
        Value::Str(bytes) => number_of_numeric(numeric_of(bytes.as_slice())),
        Value::Arr(_) | Value::Obj(_) => Err(Fatal::BadOperand),
    }
}

/// The number of a string that is this as a whole.
fn number_of_numeric(number: Numeric) -> Result<i64, Fatal>
    ensures { result ≡ php.number_of_numeric (numeric_seen number) }
{
    match number {
        Numeric::NoNumber => Err(Fatal::BadOperand),
        Numeric::Whole(number) => Ok(number),
        Numeric::FloatLike => Err(Fatal::Float),
    }
}

/// The text of a value: decimal digits of an int, `Array` of an array. `ObjectUse` for an object.
#[tactic(auto, using(crate::proofs::Shown::shown))]
pub fn to_text(alloc: Global, value: &Value) -> Result<Bytes, Stop>
    ensures { TellsBy (λ bytes. bytes) result (php.to_text (value_of value.now)) }
{
    match value {
        Value::Null | Value::Bool(false) => Ok(Bytes::from_slice(alloc, b"")?),
        Value::Bool(true) => Ok(Bytes::from_slice(alloc, b"1")?),
        Value::Int(number) => Ok(decimal_text(alloc, *number)?),
        Value::Str(bytes) => Ok(bytes.clone()?),
        Value::Arr(_) => Ok(Bytes::from_slice(alloc, b"Array")?),
        Value::Obj(_) => Err(Stop::Fatal(Fatal::ObjectUse)),
    }
}

/// The decimal digits of an int, with its sign.
fn decimal_text(alloc: Global, number: i64) -> Result<Bytes, AllocError>
    ensures { IfOk result (λ bytes. bytes ≡ signed_decimal number) }
{
    let mut buffer = Buffer::new();
    Bytes::from_slice(alloc, buffer.format(number).as_bytes())
}

/// The array of a value: `[]` of null, an array itself, `[value]` of others. `ObjectUse` for an object.
#[tactic(auto, using(crate::proofs::Shown::shown))]
pub fn to_array(alloc: Global, value: &Value) -> Result<Value, Stop>
    ensures { Tells result (php.to_array (value_of value.now)) }
{
    match value {
        Value::Null => Ok(Value::array(alloc, OrdMap::new(alloc))?),
        Value::Arr(array) => Ok(Value::Arr(array.clone()?)),
        Value::Obj(_) => Err(Stop::Fatal(Fatal::ObjectUse)),
        Value::Bool(_) | Value::Int(_) | Value::Str(_) => Ok(singleton(alloc, value.clone()?)?),
    }
}

/// The array that has one value, at the key 0.
fn singleton(alloc: Global, value: Value) -> Result<Value, AllocError>
    ensures { IfOk result (λ array. value_of array ≡ array_value (append empty_array (value_of value))) }
{
    let mut map = OrdMap::new(alloc);
    match map.append(value) {
        Ok(()) => Value::array(alloc, map),
        Err(_) => Err(AllocError),
    }
}

/// The key of a value (PHP manual, Arrays): a string that is the decimal of the int that it spells is that int.
/// `IllegalOffset` for arrays and objects.
#[tactic(auto, using(crate::proofs::Shown::shown))]
pub fn to_key(alloc: Global, value: &Value) -> Result<Key, Stop>
    ensures { TellsBy (λ key. key) result (php.to_key (value_of value.now)) }
{
    match value {
        Value::Null => Ok(Key::Str(Bytes::from_slice(alloc, b"")?)),
        Value::Bool(truth) => Ok(Key::Int(int_of_bool(*truth))),
        Value::Int(number) => Ok(Key::Int(*number)),
        Value::Str(bytes) => Ok(key_of_text(bytes)?),
        Value::Arr(_) | Value::Obj(_) => Err(Stop::Fatal(Fatal::IllegalOffset)),
    }
}

/// The key of a string, which shares its buffer.
fn key_of_text(bytes: &Bytes) -> Result<Key, AllocError>
    ensures { IfOk result (λ key. key ≡ php.key_of_text bytes.now) }
{
    match numeric_of(bytes.as_slice()) {
        Numeric::Whole(number) if is_decimal_of(number, bytes.as_slice()) => Ok(Key::Int(number)),
        _ => Ok(Key::Str(bytes.clone()?)),
    }
}

/// Whether bytes are the decimal of this int.
fn is_decimal_of(number: i64, bytes: &[u8]) -> bool
    ensures { result ≡ bytes_eq (signed_decimal number) bytes.now }
{
    let mut buffer = Buffer::new();
    buffer.format(number).as_bytes() == bytes
}

/// The value that a key is.
#[tactic(auto, using(crate::proofs::Shown::shown))]
pub fn key_value(key: &Key) -> Result<Value, AllocError>
    ensures { IfOk result (λ value. value_of value ≡ php.value_of_key key.now) }
{
    match key {
        Key::Int(number) => Ok(Value::Int(*number)),
        Key::Str(bytes) => Ok(Value::Str(bytes.clone()?)),
    }
}
