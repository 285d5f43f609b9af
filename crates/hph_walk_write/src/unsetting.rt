//! Unsetting behind the steps of a path (PHP manual, unset).
ghost use Rattle.std.specs.Prelude.{◌≡◌, true, Ok, IfOk, IsSome};
ghost use Rattle.std.specs.Option.{is_some};
ghost use Rattle.hph_array.specs.Array.{array_map};
ghost use Rattle.hph_php.specs.Paths.{by_key};
ghost use Rattle.hph_php.specs.Values.{array_value};
ghost use Rattle.hph_value.specs.Shown.{value_of};
ghost use Rattle.hph_walk.specs.Steps.{step_of, steps_of};
ghost use Rattle.hph_walk_write.specs.Writes.{place_of};
ghost use Rattle.hph_walk_write.specs.Unsets.{has_pairs, element_of, Looks, IsOpenAt, Enters, Ends, UnsetsBehind, Unsets};

use crate::level::{Level, array_for_write, open_at};
use crate::opening::{Opened, push_level};
use hph_array::{Key, OrdMap};
use hph_php::Fatal;
use hph_value::{Stop, Value, to_key};
use hph_walk::Step;
use std::alloc::{AllocError, Global};

/// What an unset does with a step that has others behind it.
#[derive(Drop)]
enum Progress {
    /// It goes on in an element that is there, with the array open at it.
    In(Level, Value),
    /// It leaves the value as it is.
    Left(Value),
}

/// Whether a value is an array. Null and false have no element to unset; for others it is fatal, as for a write.
#[tactic(auto, using(crate::proofs::Entering::shown))]
fn is_array(value: &Value) -> Result<bool, Fatal>
    ensures { result ≡ has_pairs (value_of value.now) }
{
    match value {
        Value::Arr(_) => Ok(true),
        Value::Null | Value::Bool(false) => Ok(false),
        Value::Bool(true) | Value::Int(_) => Err(Fatal::ScalarWrite),
        Value::Str(_) => Err(Fatal::StringOffset),
        Value::Obj(_) => Err(Fatal::ObjectUse),
    }
}

/// Whether a value is an array with this key.
#[tactic(auto, using(crate::proofs::Entering::shown))]
fn has_key(value: &Value, key: &Key) -> bool
    ensures { result ≡ is_some (element_of (value_of value.now) key.now) }
{
    match value {
        Value::Arr(elements) => elements.get().map.get(key).is_some(),
        _ => false,
    }
}

/// The key of an element that is there, by the value that is its key.
fn element_key(alloc: Global, value: &Value, key: &Value) -> Result<Option<Key>, Stop>
    ensures { Looks result (value_of value.now) (by_key (value_of key.now)) }
{
    match is_array(value) {
        Ok(true) => {
            let key = to_key(alloc, key)?;
            if has_key(value, &key) {
                Ok(Some(key))
            } else {
                Ok(None)
            }
        }
        Ok(false) => Ok(None),
        Err(fatal) => Err(Stop::Fatal(fatal)),
    }
}

/// The key of the element that a step goes to, if it is there.
fn step_key(alloc: Global, value: &Value, step: &Step) -> Result<Option<Key>, Stop>
    ensures { Looks result (value_of value.now) (step_of step.now) }
{
    match step {
        Step::Key(key) => element_key(alloc, value, key),
        Step::End => Ok(None),
    }
}

/// The pairs of an array, to be written. They aren't copied if nothing else shares them.
fn pairs_of(alloc: Global, value: Value) -> Result<OrdMap<Value>, AllocError>
    requires { has_pairs (value_of value) ≡ Ok true }
    ensures { IfOk result (λ map. value_of value ≡ array_value (array_map value_of map)) }
{
    match array_for_write(alloc, Some(value)) {
        Ok(map) => Ok(map),
        Err(_) => Err(AllocError),
    }
}

/// An array that is open at an element that is there, and the element.
fn open_element(alloc: Global, value: Value, key: Key) -> Result<(Level, Value), AllocError>
    requires { IsSome (element_of (value_of value) key) }
    ensures { IfOk result (λ opened. IsOpenAt (value_of value) key opened.0 (value_of opened.1)) }
{
    let map = pairs_of(alloc, value)?;
    let (level, inner) = open_at(map, key);
    Ok((level, inner.unwrap()))
}

/// Goes along a step that has others behind it.
fn proceed(alloc: Global, value: Value, step: &Step) -> Result<Progress, Stop>
    ensures { Enters result (value_of value) (step_of step.now) }
{
    match step_key(alloc, &value, step) {
        Ok(Some(key)) => {
            let (level, inner) = open_element(alloc, value, key)?;
            Ok(Progress::In(level, inner))
        }
        Ok(None) => Ok(Progress::Left(value)),
        Err(stop) => Err(stop),
    }
}

/// A value without the element at a key.
fn without_key(alloc: Global, value: Value, key: &Value) -> Result<Value, Stop>
    ensures { Ends result (value_of value) (by_key (value_of key.now)) }
{
    match is_array(&value) {
        Ok(true) => {
            let key = to_key(alloc, key)?;
            let mut map = pairs_of(alloc, value)?;
            map.unset(&key);
            Ok(Value::array(alloc, map)?)
        }
        Ok(false) => Ok(value),
        Err(fatal) => Err(Stop::Fatal(fatal)),
    }
}

/// A value without the element that the last step goes to.
fn without(alloc: Global, value: Value, step: &Step) -> Result<Value, Stop>
    ensures { Ends result (value_of value) (step_of step.now) }
{
    match step {
        Step::Key(key) => without_key(alloc, value, key),
        Step::End => Ok(value),
    }
}

/// A value without the element behind steps and a last one.
fn unset_behind(alloc: Global, value: Value, front: &[Step], last: &Step) -> Result<Value, Stop>
    ensures { UnsetsBehind result (value_of value) (steps_of front.now) (step_of last.now) }
{
    let mut levels = Vec::new(alloc);
    let mut inner = value;
    'steps: for step in front {
        match proceed(alloc, inner, step) {
            Ok(Progress::In(level, next)) => {
                push_level(&mut levels, level)?;
                inner = next;
            }
            Ok(Progress::Left(value)) => return Ok(Opened::of(levels).close(alloc, value)?),
            Err(stop) => return Err(stop),
        }
    }
    match without(alloc, inner, last) {
        Ok(value) => Ok(Opened::of(levels).close(alloc, value)?),
        Err(stop) => Err(stop),
    }
}

/// What a place has once the element behind steps is unset: nothing else changes, and nothing at all where a step goes to
/// nothing. The errors are those of `open`, but that a step by `[]`, and one of null, goes to nothing.
pub fn unset(alloc: Global, place: Option<Value>, steps: &[Step]) -> Result<Option<Value>, Stop>
    ensures { Unsets result (place_of place) (steps_of steps.now) }
{
    let Some((last, front)) = steps.split_last() else {
        return Ok(place);
    };
    match place {
        Some(value) => match unset_behind(alloc, value, front, last) {
            Ok(left) => Ok(Some(left)),
            Err(stop) => Err(stop),
        },
        None => Ok(None),
    }
}
