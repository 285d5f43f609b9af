//! Reading along a path (PHP manual, Arrays, Strings).
ghost use Rattle.std.specs.Prelude.{◌≡◌, None};
ghost use Rattle.hph_php.specs.State.{empty_heap};
ghost use Rattle.hph_php.specs.Values.{array_value};
ghost use Rattle.hph_php.specs.Paths.{read_key};
ghost use Rattle.hph_array.specs.Array.{array_map};
ghost use Rattle.hph_value.specs.Shown.{value_of, TellsBy};
ghost use Rattle.hph_walk.specs.Seen.{seen_value};
ghost use Rattle.hph_walk.specs.Steps.{steps_of, read_by, Reads};

use crate::bytes::read_byte;
use crate::seen::Seen;
use crate::step::Step;
use hph_array::OrdMap;
use hph_php::Fatal;
use hph_value::{Stop, Value, to_key};
use std::alloc::Global;

/// The element of an array at a key, null where it is unset. `IllegalOffset` for what is no key.
#[tactic(auto, using(crate::proofs::Walks::shown))]
fn element<'a>(alloc: Global, array: &'a OrdMap<Value>, key: &Value) -> Result<Seen<'a>, Stop>
    ensures { TellsBy seen_value result (read_key empty_heap None (array_value (array_map value_of array.now)) (value_of key.now)) }
{
    let key = to_key(alloc, key)?;
    match array.get(&key) {
        Some(value) => Ok(Seen::Held(value)),
        None => Ok(Seen::Unset),
    }
}

/// What a held value has at a key: null for null, a bool and an int, `ObjectUse` for an object.
#[tactic(auto, using(crate::proofs::Walks::shown))]
fn inside<'a>(alloc: Global, value: &'a Value, key: &Value) -> Result<Seen<'a>, Stop>
    ensures { TellsBy seen_value result (read_key empty_heap None (value_of value.now) (value_of key.now)) }
{
    match value {
        Value::Null | Value::Bool(_) | Value::Int(_) => Ok(Seen::Unset),
        Value::Str(bytes) => read_byte(bytes.as_slice(), key),
        Value::Arr(array) => element(alloc, &array.get().map, key),
        Value::Obj(_) => Err(Stop::Fatal(Fatal::ObjectUse)),
    }
}

/// What is seen at a key of what was seen before.
fn at_key<'a>(alloc: Global, seen: Seen<'a>, key: &Value) -> Result<Seen<'a>, Stop>
    ensures { TellsBy seen_value result (read_key empty_heap None (seen_value seen.entry) (value_of key.now)) }
{
    match seen {
        Seen::Held(value) => inside(alloc, value, key),
        Seen::Byte(byte) => read_byte(&[byte], key),
        Seen::NoByte => read_byte(&[], key),
        Seen::Unset => Ok(Seen::Unset),
    }
}

/// What is seen behind one more step.
fn behind<'a>(alloc: Global, seen: Seen<'a>, step: &Step) -> Result<Seen<'a>, Stop>
    ensures { TellsBy seen_value result (read_by (seen_value seen.entry) step.now) }
{
    match step {
        Step::Key(key) => at_key(alloc, seen, key),
        Step::End => Ok(Seen::Unset),
    }
}

/// The value behind steps. `StringOffset` for a key of a string that is no int, `IllegalOffset` for a key of an array that is
/// an array or an object, `ObjectUse` for a key of an object; each at the first such step.
pub fn read(alloc: Global, value: &Value, steps: &[Step]) -> Result<Value, Stop>
    ensures { Reads result (value_of value.now) (steps_of steps.now) }
{
    let mut seen = Seen::Held(value);
    'steps: for step in steps {
        seen = behind(alloc, seen, step)?;
    }
    Ok(seen.copied(alloc)?)
}
