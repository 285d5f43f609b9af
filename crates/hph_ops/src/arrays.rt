//! `$a[] = x` (PHP manual, Arrays).
ghost use Rattle.hph_array.specs.Array.{array_map};
ghost use Rattle.hph_php.specs.Arrays as php;
ghost use Rattle.hph_php.specs.Conversions.{map_ok};
ghost use Rattle.hph_php.specs.Values.{array_value, empty_array};
ghost use Rattle.hph_value.specs.Shown.{value_of, Tells};
ghost use Rattle.hph_ops.specs.Writes.{array_seen, with_last, AppendsAlongPath, Writes, WritesBy};

use hph_array::{AppendFault, OrdMap, Shared};
use hph_php::Fatal;
use hph_value::{Elements, Stop, Value};
use std::alloc::Global;

/// Puts a value last in the array of a variable, at the next key: in its place where nothing else shares the array, else in a
/// copy. Null and false become an array. `AppendFull` behind the greatest int, `ScalarWrite` for true and an int,
/// `StringOffset` for a string, `ObjectUse` for an object.
#[tactic(auto, using(crate::proofs::Shown::shown, crate::proofs::Writes::array_written))]
pub fn append_to(alloc: Global, variable: &mut Value, value: Value) -> Result<(), Stop>
    ensures { Writes result variable.old variable.new (with_last (value_of variable.old) (value_of value)) }
{
    match variable {
        Value::Arr(array) => append_shared(alloc, array, value),
        Value::Null | Value::Bool(false) => append_to_none(alloc, variable, value),
        Value::Bool(true) | Value::Int(_) => Err(Stop::Fatal(Fatal::ScalarWrite)),
        Value::Str(_) => Err(Stop::Fatal(Fatal::StringOffset)),
        Value::Obj(_) => Err(Stop::Fatal(Fatal::ObjectUse)),
    }
}

/// What `append_to` leaves is what a write along the path `[]` does.
#[tactic(auto, using(crate::proofs::Writes::along_path))]
pub fn appends_along_a_path()
    ensures { AppendsAlongPath }
{}

/// The array with a value last, at the next key: the array itself where nothing else shares its pairs, else a copy.
/// `AppendFull` behind the greatest int.
pub fn append(alloc: Global, array: Shared<Elements<Value>>, value: Value) -> Result<Value, Stop>
    ensures { Tells result (map_ok array_value (php.append (array_map value_of array.map) (value_of value))) }
{
    let mut longer = array;
    append_shared(alloc, &mut longer, value)?;
    Ok(Value::Arr(longer))
}

/// Puts a value last in an array: in its place where nothing else shares it, else in a copy.
fn append_shared(
    alloc: Global,
    array: &mut Shared<Elements<Value>>,
    value: Value,
) -> Result<(), Stop>
    ensures { WritesBy array_seen result array.old array.new (php.append (array_seen array.old) (value_of value)) }
{
    match array.get_mut() {
        Some(elements) => add_last(&mut elements.map, value),
        None => append_to_copy(alloc, array, value),
    }
}

/// Puts a value last in a copy of an array, which others share.
fn append_to_copy(
    alloc: Global,
    array: &mut Shared<Elements<Value>>,
    value: Value,
) -> Result<(), Stop>
    ensures { WritesBy array_seen result array.old array.new (php.append (array_seen array.old) (value_of value)) }
{
    let mut map = array.get().map.copy_with_room(1)?;
    add_last(&mut map, value)?;
    *array = Elements::shared(alloc, map)?;
    Ok(())
}

/// Puts a value last in the pairs of an array.
fn add_last(map: &mut OrdMap<Value>, value: Value) -> Result<(), Stop>
    ensures { WritesBy (array_map value_of) result map.old map.new (php.append (array_map value_of map.old) (value_of value)) }
{
    match map.append(value) {
        Ok(()) => Ok(()),
        Err(AppendFault::Full) => Err(Stop::Fatal(Fatal::AppendFull)),
        Err(AppendFault::NoMemory) => Err(Stop::NoMemory),
    }
}

/// Puts the array of one value, at the key 0, in a variable.
fn append_to_none(alloc: Global, variable: &mut Value, value: Value) -> Result<(), Stop>
    ensures { Writes result variable.old variable.new (map_ok array_value (php.append empty_array (value_of value))) }
{
    let mut map = OrdMap::new(alloc);
    add_last(&mut map, value)?;
    *variable = Value::array(alloc, map)?;
    Ok(())
}
