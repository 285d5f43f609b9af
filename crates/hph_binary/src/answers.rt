//! The values of answers.
ghost use Rattle.std.specs.Prelude.{◌≡◌, Err};
ghost use Rattle.std.specs.Ordering.{is_lt, is_le, is_gt, is_ge};
ghost use Rattle.hph_php.specs.Comparison.{loose_order};
ghost use Rattle.hph_php.specs.Conversions.{map_ok};
ghost use Rattle.hph_php.specs.Operators.{int_of_order};
ghost use Rattle.hph_php.specs.Values as php;
ghost use Rattle.hph_value.specs.Shown.{value_of, Tells};
ghost use Rattle.hph_value.specs.declared.value.Stop.TheVariants.{NoMemory};
ghost use Rattle.hph_binary.specs.Operands.{unless_strings};

use hph_ops::order;
use hph_php::Fatal;
use hph_value::{Stop, Value};
use std::cmp::Ordering;

/// The value of a number.
#[tactic(auto, using(crate::proofs::Told::shown))]
pub fn int_answer(number: Result<i64, Fatal>) -> Result<Value, Stop>
    ensures answer { Tells result (map_ok php.Int number) }
    ensures free { result ≡ Err NoMemory → ⊥ }
{
    match number {
        Ok(number) => Ok(Value::Int(number)),
        Err(fatal) => Err(Stop::Fatal(fatal)),
    }
}

/// The value of a truth.
#[tactic(auto, using(crate::proofs::Told::shown))]
pub fn truth_answer(truth: Result<bool, Fatal>) -> Result<Value, Stop>
    ensures answer { Tells result (map_ok php.Boolean truth) }
    ensures free { result ≡ Err NoMemory → ⊥ }
{
    match truth {
        Ok(truth) => Ok(Value::Bool(truth)),
        Err(fatal) => Err(Stop::Fatal(fatal)),
    }
}

/// The value of a number of bits. `BadOperand` where both operands are strings.
#[tactic(auto, using(crate::proofs::Told::shown))]
pub fn bits_answer(x: &Value, y: &Value, number: Result<i64, Fatal>) -> Result<Value, Stop>
    ensures answer { Tells result (unless_strings (value_of x.now) (value_of y.now) (map_ok php.Int number)) }
    ensures free { result ≡ Err NoMemory → ⊥ }
{
    match x {
        Value::Str(_) => match y {
            Value::Str(_) => Err(Stop::Fatal(Fatal::BadOperand)),
            _ => int_answer(number),
        },
        _ => int_answer(number),
    }
}

/// `<`
pub fn less(x: &Value, y: &Value) -> Result<bool, Fatal>
    ensures { result ≡ map_ok is_lt (loose_order (value_of x.now) (value_of y.now)) }
{
    match order(x, y) {
        Ok(order) => Ok(order.is_lt()),
        Err(fatal) => Err(fatal),
    }
}

/// `<=`
pub fn less_equal(x: &Value, y: &Value) -> Result<bool, Fatal>
    ensures { result ≡ map_ok is_le (loose_order (value_of x.now) (value_of y.now)) }
{
    match order(x, y) {
        Ok(order) => Ok(order.is_le()),
        Err(fatal) => Err(fatal),
    }
}

/// `>`
pub fn greater(x: &Value, y: &Value) -> Result<bool, Fatal>
    ensures { result ≡ map_ok is_gt (loose_order (value_of x.now) (value_of y.now)) }
{
    match order(x, y) {
        Ok(order) => Ok(order.is_gt()),
        Err(fatal) => Err(fatal),
    }
}

/// `>=`
pub fn greater_equal(x: &Value, y: &Value) -> Result<bool, Fatal>
    ensures { result ≡ map_ok is_ge (loose_order (value_of x.now) (value_of y.now)) }
{
    match order(x, y) {
        Ok(order) => Ok(order.is_ge()),
        Err(fatal) => Err(fatal),
    }
}

/// `<=>`
pub fn spaceship(x: &Value, y: &Value) -> Result<i64, Fatal>
    ensures { result ≡ map_ok int_of_order (loose_order (value_of x.now) (value_of y.now)) }
{
    match order(x, y) {
        Ok(Ordering::Less) => Ok(-1),
        Ok(Ordering::Equal) => Ok(0),
        Ok(Ordering::Greater) => Ok(1),
        Err(fatal) => Err(fatal),
    }
}
