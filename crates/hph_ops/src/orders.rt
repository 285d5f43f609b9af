//! The loose order of values (PHP manual, Comparison with Various Types). No call takes memory.
ghost use Rattle.std.specs.Prelude.{◌≡◌};
ghost use Rattle.hph_php.specs.Comparison as php;
ghost use Rattle.hph_php.specs.Values as value;
ghost use Rattle.std.specs.Ordering.{ordering_reverse};
ghost use Rattle.hph_php.specs.Conversions.{map_ok, to_bool};
ghost use Rattle.hph_php.specs.NumericStrings.{numeric_of};
ghost use Rattle.hph_ops.specs.Kinds.{IsArrayValue};
ghost use Rattle.hph_value.specs.Shown.{value_of};

use hph_php::Fatal;
use hph_value::{Numeric, Value, numeric_of, to_bool};
use itoa::Buffer;
use std::cmp::Ordering;

/// The order of two values. `Float` where PHP compares with a float, `ObjectCompare` for an object with anything but itself,
/// null and bools, `ArrayOrder` for two arrays.
#[tactic(auto, using(crate::proofs::Shown::shown))]
pub fn order(x: &Value, y: &Value) -> Result<Ordering, Fatal>
    ensures { result ≡ php.loose_order (value_of x.now) (value_of y.now) }
{
    match x {
        Value::Null => null_order(y),
        Value::Bool(truth) => Ok(truth.cmp(&to_bool(y))),
        Value::Int(number) => int_order(*number, y),
        Value::Str(bytes) => text_order(bytes.as_slice(), y),
        Value::Arr(_) => array_order(x, y),
        Value::Obj(number) => object_order(*number, y),
    }
}

/// The order of null and a value.
#[tactic(auto, using(crate::proofs::Shown::shown))]
fn null_order(y: &Value) -> Result<Ordering, Fatal>
    ensures { result ≡ php.loose_order value.Null (value_of y.now) }
{
    match y {
        Value::Null => Ok(Ordering::Equal),
        Value::Str(bytes) => Ok(bytes_order(b"", bytes.as_slice())),
        _ => Ok(false.cmp(&to_bool(y))),
    }
}

/// The order of an int and a value.
#[tactic(auto, using(crate::proofs::Shown::shown))]
fn int_order(x: i64, y: &Value) -> Result<Ordering, Fatal>
    ensures { result ≡ php.loose_order (value.Int x) (value_of y.now) }
{
    match y {
        Value::Null => Ok((x != 0).cmp(&false)),
        Value::Bool(truth) => Ok((x != 0).cmp(truth)),
        Value::Int(number) => Ok(x.cmp(number)),
        Value::Str(bytes) => int_with(x, bytes.as_slice()),
        Value::Arr(_) => Ok(Ordering::Less),
        Value::Obj(_) => Err(Fatal::ObjectCompare),
    }
}

/// The order of an int and a string: as numbers, or else as strings.
fn int_with(x: i64, bytes: &[u8]) -> Result<Ordering, Fatal>
    ensures { result ≡ php.int_with x bytes.now (numeric_of bytes.now) }
{
    match numeric_of(bytes) {
        Numeric::Whole(number) => Ok(x.cmp(&number)),
        Numeric::FloatLike => Err(Fatal::Float),
        Numeric::NoNumber => {
            let mut buffer = Buffer::new();
            Ok(bytes_order(buffer.format(x).as_bytes(), bytes))
        }
    }
}

/// The order of two strings by their bytes.
fn bytes_order(x: &[u8], y: &[u8]) -> Ordering
    ensures { result ≡ php.bytes_order x.now y.now }
{
    x.cmp(y)
}

/// The order of a string and a value.
#[tactic(auto, using(crate::proofs::Shown::shown))]
fn text_order(x: &[u8], y: &Value) -> Result<Ordering, Fatal>
    ensures { result ≡ php.loose_order (value.Str x.now) (value_of y.now) }
{
    match y {
        Value::Null => Ok(bytes_order(x, b"")),
        Value::Bool(truth) => Ok(is_true_text(x).cmp(truth)),
        Value::Int(number) => turned(int_with(*number, x)),
        Value::Str(bytes) => texts_order(x, bytes.as_slice()),
        Value::Arr(_) => Ok(Ordering::Less),
        Value::Obj(_) => Err(Fatal::ObjectCompare),
    }
}

/// Whether a string is true: it is neither empty nor `0`.
fn is_true_text(bytes: &[u8]) -> bool
    ensures { result ≡ to_bool (value.Str bytes.now) }
{
    !(bytes.is_empty() || bytes == b"0".as_slice())
}

/// The order with its operands in each other's place.
fn turned(order: Result<Ordering, Fatal>) -> Result<Ordering, Fatal>
    ensures { result ≡ map_ok ordering_reverse order }
{
    match order {
        Ok(order) => Ok(order.reverse()),
        Err(fatal) => Err(fatal),
    }
}

/// The order of two strings: as numbers where both are numbers, else by their bytes.
fn texts_order(x: &[u8], y: &[u8]) -> Result<Ordering, Fatal>
    ensures { result ≡ php.strings_with x.now y.now (numeric_of x.now) (numeric_of y.now) }
{
    match numeric_of(x) {
        Numeric::NoNumber => Ok(bytes_order(x, y)),
        Numeric::Whole(a) => match numeric_of(y) {
            Numeric::NoNumber => Ok(bytes_order(x, y)),
            Numeric::Whole(b) => Ok(a.cmp(&b)),
            Numeric::FloatLike => Err(Fatal::Float),
        },
        Numeric::FloatLike => match numeric_of(y) {
            Numeric::NoNumber => Ok(bytes_order(x, y)),
            Numeric::Whole(_) | Numeric::FloatLike => Err(Fatal::Float),
        },
    }
}

/// The order of an array and a value.
#[tactic(auto, using(crate::proofs::Shown::shown))]
fn array_order(x: &Value, y: &Value) -> Result<Ordering, Fatal>
    requires { IsArrayValue (value_of x.now) }
    ensures { result ≡ php.loose_order (value_of x.now) (value_of y.now) }
{
    match y {
        Value::Null => Ok(to_bool(x).cmp(&false)),
        Value::Bool(truth) => Ok(to_bool(x).cmp(truth)),
        Value::Int(_) | Value::Str(_) => Ok(Ordering::Greater),
        Value::Arr(_) => Err(Fatal::ArrayOrder),
        Value::Obj(_) => Err(Fatal::ObjectCompare),
    }
}

/// The order of an object and a value.
#[tactic(auto, using(crate::proofs::Shown::shown))]
fn object_order(x: u32, y: &Value) -> Result<Ordering, Fatal>
    ensures { result ≡ php.loose_order (value.Obj x) (value_of y.now) }
{
    match y {
        Value::Null => Ok(true.cmp(&false)),
        Value::Bool(truth) => Ok(true.cmp(truth)),
        Value::Obj(number) if x == *number => Ok(Ordering::Equal),
        _ => Err(Fatal::ObjectCompare),
    }
}
