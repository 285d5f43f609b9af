//! Unary operators and casts (PHP manual, Operators and Type Juggling).
ghost use Rattle.std.specs.Prelude.{◌≡◌, Err, true};
ghost use Rattle.hph_php.specs.Conversions.{map_ok, to_text};
ghost use Rattle.hph_php.specs.Operators as php;
ghost use Rattle.hph_php.specs.Values.{Int, Str};
ghost use Rattle.hph_value.specs.Shown.{value_of, Tells};
ghost use Rattle.hph_value.specs.declared.value.Stop.TheVariants.{NoMemory};
ghost use Rattle.hph_ops.specs.Memory.{may_take_memory};

use crate::numbers::negation;
use hph_php::{Fatal, UnOp};
use hph_value::{Stop, Value, number_of, to_array, to_bool, to_int, to_text};
use std::alloc::Global;

/// The answer that an int or a fatal error is.
#[tactic(auto, using(crate::proofs::Shown::shown))]
fn int_answer(number: Result<i64, Fatal>) -> Result<Value, Stop>
    ensures answer { Tells result (map_ok Int number) }
    ensures free { result ≡ Err NoMemory → ⊥ }
{
    match number {
        Ok(number) => Ok(Value::Int(number)),
        Err(fatal) => Err(Stop::Fatal(fatal)),
    }
}

/// The text of a value, as a value.
#[tactic(auto, using(crate::proofs::Shown::shown))]
fn text_value(alloc: Global, x: &Value) -> Result<Value, Stop>
    ensures { Tells result (map_ok Str (to_text (value_of x.now))) }
{
    match to_text(alloc, x) {
        Ok(bytes) => Ok(Value::Str(bytes)),
        Err(stop) => Err(stop),
    }
}

/// `~`, of ints alone.
#[tactic(auto, using(crate::proofs::Shown::shown))]
fn complement(x: &Value) -> Result<Value, Stop>
    ensures answer { Tells result (php.complement (value_of x.now)) }
    ensures free { result ≡ Err NoMemory → ⊥ }
{
    match x {
        Value::Int(number) => Ok(Value::Int(!*number)),
        Value::Null | Value::Bool(_) | Value::Str(_) | Value::Arr(_) | Value::Obj(_) => {
            Err(Stop::Fatal(Fatal::BadOperand))
        }
    }
}

/// A unary operator or a cast on a value. Memory is taken by `(string)` and `(array)` alone.
#[tactic(auto, using(crate::proofs::Shown::shown, crate::proofs::Answers::mapped_then))]
pub fn unary(alloc: Global, op: UnOp, x: &Value) -> Result<Value, Stop>
    ensures answer { Tells result (php.unary_of op (value_of x.now)) }
    ensures memory { result ≡ Err NoMemory → may_take_memory op ≡ true }
{
    match op {
        UnOp::Plus => int_answer(number_of(x)),
        UnOp::Minus => int_answer(negation(x)),
        UnOp::BitNot => complement(x),
        UnOp::Not => Ok(Value::Bool(!to_bool(x))),
        UnOp::ToInt => int_answer(to_int(x)),
        UnOp::ToBool => Ok(Value::Bool(to_bool(x))),
        UnOp::ToString => text_value(alloc, x),
        UnOp::ToArray => to_array(alloc, x),
    }
}
