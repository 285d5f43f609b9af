//! Rows of literals, and of the top of the operand stack.
ghost use Rattle.hph_effects.specs.Values as values;
ghost use Rattle.hph_host_state.specs.States.{Serves};

use crate::codes::signed;
use hph_array::{Bytes, OrdMap};
use hph_host_state::{Answer, Item, State};
use hph_value::Value;

/// `null`
#[tactic(auto, using(crate::proofs::Shown::shown))]
pub fn null(state: &mut State) -> Answer
    ensures { Serves result values.null state.old state.new }
{
    state.push_value(Value::Null)
}

/// `bool`: each number but 0 is true.
#[tactic(auto, using(crate::proofs::Shown::shown))]
pub fn bool(state: &mut State, truth: u64) -> Answer
    ensures { Serves result (values.bool truth) state.old state.new }
{
    state.push_value(Value::Bool(truth != 0))
}

/// `int`: the number of 64 bits in two's complement.
#[tactic(auto, using(crate::proofs::Shown::shown))]
pub fn int(state: &mut State, number: u64) -> Answer
    ensures { Serves result (values.int number) state.old state.new }
{
    state.push_value(Value::Int(signed(number)))
}

/// `str`: the string of these bytes of the memory.
#[tactic(auto, using(crate::proofs::Shown::shown))]
pub fn str(state: &mut State, bytes: &[u8]) -> Answer
    ensures { Serves result (values.str bytes.now) state.old state.new }
{
    let text = Bytes::from_slice(state.alloc, bytes)?;
    state.push_value(Value::Str(text))
}

/// `arr`: an array without pairs.
#[tactic(auto, using(crate::proofs::Shown::shown))]
pub fn arr(state: &mut State) -> Answer
    ensures { Serves result values.arr state.old state.new }
{
    let array = Value::array(state.alloc, OrdMap::new(state.alloc))?;
    state.push_value(array)
}

/// `drop`: takes the item on top.
pub fn drop_item(state: &mut State) -> Answer
    ensures { Serves result values.drop state.old state.new }
{
    state.pop_item()?;
    Ok(None)
}

/// `dup`: puts a copy of the item on top there.
pub fn dup(state: &mut State) -> Answer
    ensures { Serves result values.dup state.old state.new }
{
    let item = state.pop_item()?;
    let copy = item.clone()?;
    state.put(item)?;
    state.push(copy)
}
