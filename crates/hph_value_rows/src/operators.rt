//! Rows of operators and tests.
ghost use Rattle.std.specs.Prelude.{Result};
ghost use Rattle.hph_effects.specs.Values as values;
ghost use Rattle.hph_php.specs.Operators as php;
ghost use Rattle.hph_value.specs.Shown.{value_of, Tells};
ghost use Rattle.hph_host_state.specs.States.{Serves};

use crate::codes::{binary_operator, unary_operator, unsigned};
use hph_binary::binary;
use hph_host_state::{Answer, MISUSE, State};
use hph_ops::{joined_onto, unary};
use hph_php::BinOp;
use hph_value::{Stop, Value, to_bool};
use std::alloc::Global;

/// The value of an operator on two operands, the first of which is given up: `.` goes on in its buffer where nothing else shares it.
fn operated(alloc: Global, op: BinOp, x: Value, y: &Value) -> Result<Value, Stop>
    ensures { Tells result (php.binary_of op (value_of x) (value_of y.now)) }
{
    match op {
        BinOp::Concat => joined_onto(alloc, x, y),
        _ => binary(alloc, op, &x, y),
    }
}

/// `op2`: the operator of a code on the two values on top, the second one above.
pub fn op2(state: &mut State, code: u64) -> Answer
    ensures { Serves result (values.op2 code) state.old state.new }
{
    let Some(op) = binary_operator(code) else {
        return Err(MISUSE);
    };
    let y = state.pop_value()?;
    let x = state.pop_value()?;
    let answer = operated(state.alloc, op, x, &y);
    state.settle(answer)
}

/// `op1`: the operator of a code on the value on top.
pub fn op1(state: &mut State, code: u64) -> Answer
    ensures { Serves result (values.op1 code) state.old state.new }
{
    let Some(op) = unary_operator(code) else {
        return Err(MISUSE);
    };
    let x = state.pop_value()?;
    let answer = unary(state.alloc, op, &x);
    state.settle(answer)
}

/// `truth`: 1 where the value on top, which is taken, is true, else 0.
pub fn truth(state: &mut State) -> Answer
    ensures { Serves result values.truth state.old state.new }
{
    let value = state.pop_value()?;
    Ok(Some(u64::from(to_bool(&value))))
}

/// `pop_int`: the bits of the int on top, which is taken. A misuse where another value is there.
#[tactic(auto, using(crate::proofs::Shown::shown))]
pub fn pop_int(state: &mut State) -> Answer
    ensures { Serves result values.pop_int state.old state.new }
{
    let value = state.pop_value()?;
    match &value {
        Value::Int(number) => Ok(Some(unsigned(*number))),
        _ => Err(MISUSE),
    }
}

/// `pop_bool`: 1 where the bool on top, which is taken, is true, else 0. A misuse where another value is there.
#[tactic(auto, using(crate::proofs::Shown::shown))]
pub fn pop_bool(state: &mut State) -> Answer
    ensures { Serves result values.pop_bool state.old state.new }
{
    let value = state.pop_value()?;
    match &value {
        Value::Bool(truth) => Ok(Some(u64::from(*truth))),
        _ => Err(MISUSE),
    }
}
