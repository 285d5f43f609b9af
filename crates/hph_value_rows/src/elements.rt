//! Rows of steps of paths, and of elements of arrays.
ghost use Rattle.std.specs.Prelude.{Result};
ghost use Rattle.hph_array.specs.Array.{array_map};
ghost use Rattle.hph_effects.specs.Values as values;
ghost use Rattle.hph_php.specs.Conversions.{map_ok};
ghost use Rattle.hph_php.specs.Operations.{with_key};
ghost use Rattle.hph_php.specs.Values.{array_value};
ghost use Rattle.hph_value.specs.Shown.{value_of, Tells};
ghost use Rattle.hph_host_state.specs.States.{Serves};
ghost use Rattle.hph_value_rows.specs.Arrays.{AreElements};

use hph_array::Shared;
use hph_host_state::{Answer, Item, MISUSE, State};
use hph_ops::append;
use hph_value::{Elements, Stop, Value, owned_map, to_key};
use std::alloc::Global;

/// `step_key`: the value on top becomes a step to the element at it.
pub fn step_key(state: &mut State) -> Answer
    ensures { Serves result values.step_key state.old state.new }
{
    let key = state.pop_value()?;
    state.push(Item::Key(key))
}

/// `step_append`: puts a step to a new element on top.
pub fn step_append(state: &mut State) -> Answer
    ensures { Serves result values.step_append state.old state.new }
{
    state.push(Item::Append)
}

/// `step_prop`: the string on top becomes a step to the property of that name.
pub fn step_prop(state: &mut State) -> Answer
    ensures { Serves result values.step_prop state.old state.new }
{
    let name = state.pop_text()?;
    state.push(Item::Property(name))
}

/// The pairs of an array. A misuse for another value. Where nothing else shared them, nothing else does.
#[tactic(auto, using(crate::proofs::Shown::shown))]
fn elements_of(value: Value) -> Result<Shared<Elements<Value>>, Stop>
    ensures { AreElements result (value_of value) }
{
    match &value {
        Value::Arr(elements) => Ok(elements.clone()?),
        Value::Null | Value::Bool(_) | Value::Int(_) | Value::Str(_) | Value::Obj(_) => Err(MISUSE),
    }
}

/// The array with a value at a key, which is converted.
fn set_element(
    alloc: Global,
    elements: Shared<Elements<Value>>,
    key: &Value,
    value: Value,
) -> Result<Value, Stop>
    ensures { Tells result (map_ok array_value (with_key (value_of key.now) (value_of value) (array_map value_of elements.map))) }
{
    let key = to_key(alloc, key)?;
    let mut map = owned_map(elements)?;
    map.set(key, value)?;
    Ok(Value::array(alloc, map)?)
}

/// `elem`: the value on top goes last into the array below it.
pub fn elem(state: &mut State) -> Answer
    ensures { Serves result values.elem state.old state.new }
{
    let value = state.pop_value()?;
    let array = state.pop_value()?;
    let elements = elements_of(array)?;
    let answer = append(state.alloc, elements, value);
    state.settle(answer)
}

/// `elem_key`: the value on top goes into the array at the bottom of three, at the key between them.
pub fn elem_key(state: &mut State) -> Answer
    ensures { Serves result values.elem_key state.old state.new }
{
    let value = state.pop_value()?;
    let key = state.pop_value()?;
    let array = state.pop_value()?;
    let elements = elements_of(array)?;
    let answer = set_element(state.alloc, elements, &key, value);
    state.settle(answer)
}
