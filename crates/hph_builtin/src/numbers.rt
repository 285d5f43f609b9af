//! Functions of numbers (PHP manual, Math Functions). No call takes memory.
ghost use Rattle.std.specs.Prelude.{◌∷◌, []};
ghost use Rattle.hph_php.specs.Builtins as php;
ghost use Rattle.hph_value.specs.Shown.{value_of, Tells};

use crate::arguments::number_argument;
use hph_php::{Builtin, Fatal};
use hph_value::{Stop, Value};

/// The quotient toward 0 of two ints. `DivZero` by 0, `Overflow` past 64 bits.
#[tactic(auto, using(crate::proofs::Shown::shown))]
fn quotient(a: i64, b: i64) -> Result<Value, Stop>
    ensures { Tells result (php.intdiv a b) }
{
    if b == 0 {
        return Err(Stop::Fatal(Fatal::DivZero));
    }
    match a.checked_div(b) {
        Some(quotient) => Ok(Value::Int(quotient)),
        None => Err(Stop::Fatal(Fatal::Overflow)),
    }
}

/// The quotient toward 0 of two numbers (`intdiv`). `DivZero` by 0, `Overflow` past 64 bits.
pub fn intdiv(x: &Value, y: &Value) -> Result<Value, Stop>
    ensures { Tells result (php.builtin_of Builtin.Intdiv (value_of x.now ∷ value_of y.now ∷ [])).value }
{
    let a = number_argument(x)?;
    let b = number_argument(y)?;
    quotient(a, b)
}

/// The size of an int. `Overflow` for the least one.
#[tactic(auto, using(crate::proofs::Shown::shown))]
fn size(a: i64) -> Result<Value, Stop>
    ensures { Tells result (php.abs a) }
{
    match a.checked_abs() {
        Some(size) => Ok(Value::Int(size)),
        None => Err(Stop::Fatal(Fatal::Overflow)),
    }
}

/// The size of a number (`abs`). `Overflow` for the least int.
pub fn abs(x: &Value) -> Result<Value, Stop>
    ensures { Tells result (php.builtin_of Builtin.Abs (value_of x.now ∷ [])).value }
{
    let a = number_argument(x)?;
    size(a)
}
