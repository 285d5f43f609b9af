//! Two values that are not both arrays. No call takes memory.
ghost use Rattle.std.specs.Prelude.{◌≡◌, ◌&&◌, false};
ghost use Rattle.hph_php.specs.Comparison as php;
ghost use Rattle.hph_value.specs.Shown.{value_of};
ghost use Rattle.hph_equal.specs.Frames.{equal_by, is_array, IsArrayIn};

use crate::frame::Equality;
use hph_array::OrdMap;
use hph_ops::order;
use hph_php::Fatal;
use hph_value::Value;
use std::cmp::Ordering;

/// The pairs of an array; none of another value.
#[tactic(auto, using(crate::proofs::Steps::shown))]
pub fn array_in(value: &Value) -> Option<&OrdMap<Value>>
    ensures { IsArrayIn result (value_of value.now) }
{
    match value {
        Value::Arr(elements) => Some(&elements.get().map),
        _ => None,
    }
}

/// Whether values that aren't both arrays are equal.
pub fn equal_apart(equality: Equality, x: &Value, y: &Value) -> Result<bool, Fatal>
    requires { (is_array (value_of x.now) && is_array (value_of y.now)) ≡ false }
    ensures { result ≡ equal_by equality (value_of x.now) (value_of y.now) }
{
    match equality {
        Equality::Loose => loosely_apart(x, y),
        Equality::Strict => Ok(identical_apart(x, y)),
    }
}

/// Whether values that aren't both arrays are equal by their order.
#[tactic(auto, using(crate::proofs::Steps::by_order_apart))]
fn loosely_apart(x: &Value, y: &Value) -> Result<bool, Fatal>
    requires { (is_array (value_of x.now) && is_array (value_of y.now)) ≡ false }
    ensures { result ≡ php.loosely_equal (value_of x.now) (value_of y.now) }
{
    match order(x, y) {
        Ok(order) => Ok(order.is_eq()),
        Err(fatal) => Err(fatal),
    }
}

/// Whether values that aren't both arrays are of one kind and the same.
#[tactic(auto, using(crate::proofs::Steps::shown, crate::proofs::Steps::not_identical))]
fn identical_apart(x: &Value, y: &Value) -> bool
    requires { (is_array (value_of x.now) && is_array (value_of y.now)) ≡ false }
    ensures { result ≡ php.identical (value_of x.now) (value_of y.now) }
{
    match x {
        Value::Null => match y {
            Value::Null => true,
            _ => false,
        },
        Value::Bool(truth) => match y {
            Value::Bool(other) => *truth == *other,
            _ => false,
        },
        Value::Int(number) => match y {
            Value::Int(other) => *number == *other,
            _ => false,
        },
        Value::Str(bytes) => match y {
            Value::Str(other) => *bytes == *other,
            _ => false,
        },
        Value::Obj(object) => match y {
            Value::Obj(other) => *object == *other,
            _ => false,
        },
        Value::Arr(_) => false,
    }
}
