//! What a parameter takes. `BadArgument` for values of another sort.
ghost use Rattle.std.specs.Prelude.{◌≡◌};
ghost use Rattle.hph_array.specs.Array.{array_map};
ghost use Rattle.hph_php.specs.Builtins as php;
ghost use Rattle.hph_php.specs.Conversions.{map_ok};
ghost use Rattle.hph_value.specs.Shown.{value_of, TellsBy};

use hph_array::{Bytes, OrdMap};
use hph_php::Fatal;
use hph_value::{Stop, Value, number_of, to_text};
use std::alloc::Global;

/// The text of a value that is no array and no object.
#[tactic(auto, using(crate::proofs::Shown::shown))]
pub fn text_argument(alloc: Global, value: &Value) -> Result<Bytes, Stop>
    ensures { TellsBy (λ bytes. bytes) result (php.text_argument (value_of value.now)) }
{
    match value {
        Value::Arr(_) | Value::Obj(_) => Err(Stop::Fatal(Fatal::BadArgument)),
        Value::Null | Value::Bool(_) | Value::Int(_) | Value::Str(_) => to_text(alloc, value),
    }
}

/// What is no operand of arithmetic is no argument.
fn as_argument(number: Result<i64, Fatal>) -> Result<i64, Fatal>
    ensures { result ≡ php.as_argument number }
{
    match number {
        Err(Fatal::BadOperand) => Err(Fatal::BadArgument),
        other => other,
    }
}

/// The number of a value. `Float` where PHP has a float.
pub fn number_argument(value: &Value) -> Result<i64, Fatal>
    ensures { result ≡ php.number_argument (value_of value.now) }
{
    as_argument(number_of(value))
}

/// The pairs of an array.
#[tactic(auto, using(crate::proofs::Shown::shown))]
pub fn array_argument(value: &Value) -> Result<&OrdMap<Value>, Fatal>
    ensures { map_ok (λ array. array_map value_of array.now) result ≡ php.array_argument (value_of value.now) }
{
    match value {
        Value::Arr(elements) => Ok(&elements.get().map),
        Value::Null | Value::Bool(_) | Value::Int(_) | Value::Str(_) | Value::Obj(_) => {
            Err(Fatal::BadArgument)
        }
    }
}

/// A length, or null for all bytes to the end.
#[tactic(auto, using(crate::proofs::Shown::shown))]
pub fn length_argument(value: &Value) -> Result<Option<i64>, Fatal>
    ensures { result ≡ php.length_argument (value_of value.now) }
{
    match value {
        Value::Null => Ok(None),
        Value::Bool(_) | Value::Int(_) | Value::Str(_) | Value::Arr(_) | Value::Obj(_) => {
            match number_argument(value) {
                Ok(number) => Ok(Some(number)),
                Err(fatal) => Err(fatal),
            }
        }
    }
}
