//! The operators by their codes.
ghost use Rattle.std.specs.Prelude.{◌≡◌, Ok, Err, not, true};
ghost use Rattle.hph_php.specs.Comparison.{loosely_equal, identical};
ghost use Rattle.hph_php.specs.Conversions.{map_ok};
ghost use Rattle.hph_php.specs.Operators as php;
ghost use Rattle.hph_php.specs.Values.{Boolean};
ghost use Rattle.hph_value.specs.Shown.{value_of, Tells};
ghost use Rattle.hph_value.specs.declared.value.Stop.TheVariants.{NoMemory};
ghost use Rattle.hph_binary.specs.Memory.{may_take_memory};

use crate::answers::{
    bits_answer, greater, greater_equal, int_answer, less, less_equal, spaceship, truth_answer,
};
use hph_equal::{array_in, loose_eq, strict_eq};
use hph_ops::{
    bit_and, bit_or, bit_xor, difference, joined_onto, power, product, quotient, remainder,
    shift_left, shift_right, sum, union,
};
use hph_php::BinOp;
use hph_value::{Stop, Value, to_bool};
use std::alloc::Global;

/// `x op y`, whose operands are converted from left to right. The fatal errors are those of the operator. Memory is taken by
/// `+` of two arrays, by `.`, and by the equality of arrays that hold arrays.
#[tactic(auto, using(crate::proofs::Told::told))]
pub fn binary(alloc: Global, op: BinOp, x: &Value, y: &Value) -> Result<Value, Stop>
    ensures answer { Tells result (php.binary_of op (value_of x.now) (value_of y.now)) }
    ensures memory { result ≡ Err NoMemory → may_take_memory op ≡ true }
{
    match op {
        BinOp::Add => plus(alloc, x, y),
        BinOp::Sub => int_answer(difference(x, y)),
        BinOp::Mul => int_answer(product(x, y)),
        BinOp::Div => int_answer(quotient(x, y)),
        BinOp::Rem => int_answer(remainder(x, y)),
        BinOp::Pow => int_answer(power(x, y)),
        BinOp::ShiftLeft => int_answer(shift_left(x, y)),
        BinOp::ShiftRight => int_answer(shift_right(x, y)),
        BinOp::BitAnd => bits_answer(x, y, bit_and(x, y)),
        BinOp::BitOr => bits_answer(x, y, bit_or(x, y)),
        BinOp::BitXor => bits_answer(x, y, bit_xor(x, y)),
        BinOp::Concat => joined(alloc, x, y),
        BinOp::Less => truth_answer(less(x, y)),
        BinOp::LessEqual => truth_answer(less_equal(x, y)),
        BinOp::Greater => truth_answer(greater(x, y)),
        BinOp::GreaterEqual => truth_answer(greater_equal(x, y)),
        BinOp::Equal => equal(alloc, x, y),
        BinOp::NotEqual => not_equal(alloc, x, y),
        BinOp::Identical => same(alloc, x, y),
        BinOp::NotIdentical => not_same(alloc, x, y),
        BinOp::Spaceship => int_answer(spaceship(x, y)),
        BinOp::LogicalXor => truth_answer(Ok(to_bool(x) != to_bool(y))),
    }
}

/// `+`: a union where both are arrays, else a sum.
fn plus(alloc: Global, x: &Value, y: &Value) -> Result<Value, Stop>
    ensures { Tells result (php.plus (value_of x.now) (value_of y.now)) }
{
    let Some(pairs) = array_in(x) else {
        return int_answer(sum(x, y));
    };
    let Some(others) = array_in(y) else {
        return int_answer(sum(x, y));
    };
    let map = union(pairs, others)?;
    Ok(Value::array(alloc, map)?)
}

/// `.`
fn joined(alloc: Global, x: &Value, y: &Value) -> Result<Value, Stop>
    ensures { Tells result (php.joined (value_of x.now) (value_of y.now)) }
{
    let first = x.clone()?;
    joined_onto(alloc, first, y)
}

/// `==`
#[tactic(auto, using(crate::proofs::Told::shown))]
fn equal(alloc: Global, x: &Value, y: &Value) -> Result<Value, Stop>
    ensures { Tells result (map_ok Boolean (loosely_equal (value_of x.now) (value_of y.now))) }
{
    match loose_eq(alloc, x, y) {
        Ok(equal) => Ok(Value::Bool(equal)),
        Err(stop) => Err(stop),
    }
}

/// `!=`
#[tactic(auto, using(crate::proofs::Told::shown))]
fn not_equal(alloc: Global, x: &Value, y: &Value) -> Result<Value, Stop>
    ensures { Tells result (map_ok (λ e. Boolean (not e)) (loosely_equal (value_of x.now) (value_of y.now))) }
{
    match loose_eq(alloc, x, y) {
        Ok(equal) => Ok(Value::Bool(!equal)),
        Err(stop) => Err(stop),
    }
}

/// `===`
#[tactic(auto, using(crate::proofs::Told::shown))]
fn same(alloc: Global, x: &Value, y: &Value) -> Result<Value, Stop>
    ensures { Tells result (Ok (Boolean (identical (value_of x.now) (value_of y.now)))) }
{
    match strict_eq(alloc, x, y) {
        Ok(equal) => Ok(Value::Bool(equal)),
        Err(stop) => Err(stop),
    }
}

/// `!==`
#[tactic(auto, using(crate::proofs::Told::shown))]
fn not_same(alloc: Global, x: &Value, y: &Value) -> Result<Value, Stop>
    ensures { Tells result (Ok (Boolean (not (identical (value_of x.now) (value_of y.now))))) }
{
    match strict_eq(alloc, x, y) {
        Ok(equal) => Ok(Value::Bool(!equal)),
        Err(stop) => Err(stop),
    }
}
