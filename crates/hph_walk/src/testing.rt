//! Testing along a path (PHP manual, isset, empty, Null Coalescing Operator).
ghost use Rattle.std.specs.Prelude.{◌≡◌, None, IfOk, true};
ghost use Rattle.hph_php.specs.State.{empty_heap};
ghost use Rattle.hph_php.specs.Values.{array_value};
ghost use Rattle.hph_php.specs.Paths.{try_key, try_byte, old_value};
ghost use Rattle.hph_array.specs.Array.{array_map};
ghost use Rattle.hph_value.specs.Shown.{value_of};
ghost use Rattle.hph_walk.specs.Seen.{seen_value};
ghost use Rattle.hph_walk.specs.Steps.{steps_of, try_by, IsTried};

use crate::bytes::byte_at;
use crate::seen::Seen;
use crate::step::Step;
use hph_array::OrdMap;
use hph_value::{Stop, Value, to_key};
use std::alloc::{AllocError, Global};

/// The byte of a string by a key, null where there is none.
#[tactic(auto, using(crate::proofs::Walks::shown))]
fn byte_if_set<'a>(bytes: &[u8], key: &Value) -> Seen<'a>
    ensures { seen_value result ≡ old_value (try_byte bytes.now (value_of key.now)) }
{
    match key {
        Value::Int(place) => match byte_at(bytes, *place) {
            Some(byte) => Seen::Byte(byte),
            None => Seen::Unset,
        },
        _ => Seen::Unset,
    }
}

/// The element of an array at a key, null where it is unset or what is given is no key.
#[tactic(auto, using(crate::proofs::Walks::shown))]
fn element_if_set<'a>(
    alloc: Global,
    array: &'a OrdMap<Value>,
    key: &Value,
) -> Result<Seen<'a>, AllocError>
    ensures { IfOk result (λ seen. seen_value seen ≡ old_value (try_key empty_heap None (array_value (array_map value_of array.now)) (value_of key.now))) }
{
    match to_key(alloc, key) {
        Ok(key) => match array.get(&key) {
            Some(value) => Ok(Seen::Held(value)),
            None => Ok(Seen::Unset),
        },
        Err(Stop::Fatal(_)) => Ok(Seen::Unset),
        Err(Stop::NoMemory) => Err(AllocError),
    }
}

/// What a held value has at a key, null where nothing is set.
#[tactic(auto, using(crate::proofs::Walks::shown))]
fn inside_if_set<'a>(alloc: Global, value: &'a Value, key: &Value) -> Result<Seen<'a>, AllocError>
    ensures { IfOk result (λ seen. seen_value seen ≡ old_value (try_key empty_heap None (value_of value.now) (value_of key.now))) }
{
    match value {
        Value::Str(bytes) => Ok(byte_if_set(bytes.as_slice(), key)),
        Value::Arr(array) => element_if_set(alloc, &array.get().map, key),
        _ => Ok(Seen::Unset),
    }
}

/// What is set at a key of what was seen before, or null.
fn at_key_if_set<'a>(alloc: Global, seen: Seen<'a>, key: &Value) -> Result<Seen<'a>, AllocError>
    ensures { IfOk result (λ now. seen_value now ≡ old_value (try_key empty_heap None (seen_value seen.entry) (value_of key.now))) }
{
    match seen {
        Seen::Held(value) => inside_if_set(alloc, value, key),
        Seen::Byte(byte) => Ok(byte_if_set(&[byte], key)),
        Seen::NoByte => Ok(byte_if_set(&[], key)),
        Seen::Unset => Ok(Seen::Unset),
    }
}

/// What is set behind one more step, or null.
fn behind_if_set<'a>(alloc: Global, seen: Seen<'a>, step: &Step) -> Result<Seen<'a>, AllocError>
    ensures { IfOk result (λ now. seen_value now ≡ old_value (try_by (seen_value seen.entry) step.now)) }
{
    match step {
        Step::Key(key) => at_key_if_set(alloc, seen, key),
        Step::End => Ok(Seen::Unset),
    }
}

/// The value behind steps, if it is set and isn't null. No step is fatal.
pub fn read_if_set(
    alloc: Global,
    value: &Value,
    steps: &[Step],
) -> Result<Option<Value>, AllocError>
    ensures { IfOk result (λ now. IsTried now (value_of value.now) (steps_of steps.now)) }
{
    let mut seen = Seen::Held(value);
    'steps: for step in steps {
        seen = behind_if_set(alloc, seen, step)?;
    }
    Ok(seen.unless_null(alloc)?)
}
