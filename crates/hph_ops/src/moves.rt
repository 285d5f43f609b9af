//! `++` and `--` (PHP manual, Incrementing/Decrementing Operators). No call takes memory.
ghost use Rattle.std.specs.Prelude.{◌≡◌};
ghost use Rattle.hph_php.specs.Conversions.{map_ok};
ghost use Rattle.hph_php.specs.Operators as php;
ghost use Rattle.hph_php.specs.Values.{Int};
ghost use Rattle.hph_value.specs.Shown.{value_of};

use crate::numbers::settled;
use hph_php::Fatal;
use hph_value::{Numeric, Value, numeric_of};

/// The value that an int or a fatal error is.
#[tactic(auto, using(crate::proofs::Shown::shown))]
fn int_value(number: Result<i64, Fatal>) -> Result<Value, Fatal>
    ensures { map_ok value_of result ≡ map_ok Int number }
{
    match number {
        Ok(number) => Ok(Value::Int(number)),
        Err(fatal) => Err(fatal),
    }
}

/// The value that `++` leaves: 1 of null, a bool as it was, the number and 1 of an int or a string that is a whole number.
/// `StringIncrement` for other strings, `BadOperand` for arrays and objects.
#[tactic(auto, using(crate::proofs::Shown::shown))]
pub fn incremented(x: &Value) -> Result<Value, Fatal>
    ensures { map_ok value_of result ≡ php.incremented (value_of x.now) }
{
    match x {
        Value::Null => Ok(Value::Int(1)),
        Value::Bool(truth) => Ok(Value::Bool(*truth)),
        Value::Int(number) => int_value(settled(hph_num::add(*number, 1))),
        Value::Str(bytes) => match numeric_of(bytes.as_slice()) {
            Numeric::Whole(number) => int_value(settled(hph_num::add(number, 1))),
            Numeric::NoNumber | Numeric::FloatLike => Err(Fatal::StringIncrement),
        },
        Value::Arr(_) | Value::Obj(_) => Err(Fatal::BadOperand),
    }
}

/// The value that `--` leaves: null of null, a bool as it was, the number less 1 of an int or a string that is a whole
/// number. `StringIncrement` for other strings, `BadOperand` for arrays and objects.
#[tactic(auto, using(crate::proofs::Shown::shown))]
pub fn decremented(x: &Value) -> Result<Value, Fatal>
    ensures { map_ok value_of result ≡ php.decremented (value_of x.now) }
{
    match x {
        Value::Null => Ok(Value::Null),
        Value::Bool(truth) => Ok(Value::Bool(*truth)),
        Value::Int(number) => int_value(settled(hph_num::sub(*number, 1))),
        Value::Str(bytes) => match numeric_of(bytes.as_slice()) {
            Numeric::Whole(number) => int_value(settled(hph_num::sub(number, 1))),
            Numeric::NoNumber | Numeric::FloatLike => Err(Fatal::StringIncrement),
        },
        Value::Arr(_) | Value::Obj(_) => Err(Fatal::BadOperand),
    }
}
