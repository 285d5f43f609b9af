//! Lists of values.
ghost use Rattle.std.specs.Prelude.{◌≡◌, ◌<◌, IfOk, OnOk, length, map};
ghost use Rattle.hph_array.specs.Array.{append, array_map};
ghost use Rattle.hph_php.specs.Arrays.{list_array};
ghost use Rattle.hph_php.specs.StringFunctions.{explode};
ghost use Rattle.hph_php.specs.Values.{Str, array_value};
ghost use Rattle.hph_value.specs.Shown.{value_of};
ghost use Rattle.hph_builtin_array.specs.Sides.{side_of, values_on};

use hph_array::{Bytes, Key, OrdMap};
use hph_builtin_text::split_first;
use hph_value::{Value, key_value};
use memchr::memmem::Finder;
use std::alloc::{AllocError, Global};

/// A side of the pairs of an array.
#[derive(Clone, Copy)]
pub enum Side {
    Keys,
    Values,
}

/// The value that stands on one side of a pair.
fn value_on(side: Side, key: &Key, value: &Value) -> Result<Value, AllocError>
    ensures { IfOk result (λ v. value_of v ≡ side_of side (key.now, value_of value.now)) }
{
    match side {
        Side::Keys => key_value(key),
        Side::Values => value.clone(),
    }
}

/// Puts a value last. A list is never full, since it has fewer values than there are ints.
fn push(list: &mut OrdMap<Value>, value: Value) -> Result<(), AllocError>
    ensures { OnOk result (array_map value_of list.new ≡ append (array_map value_of list.old) (value_of value)) }
{
    match list.append(value) {
        Ok(()) => Ok(()),
        Err(_) => Err(AllocError),
    }
}

/// The list of the keys or of the values of an array, in order (`array_keys`, `array_values`).
pub fn list_of(alloc: Global, side: Side, array: &OrdMap<Value>) -> Result<Value, AllocError>
    ensures { IfOk result (λ list. value_of list ≡ array_value (list_array (values_on side (array_map value_of array.now).pairs))) }
{
    let mut list = OrdMap::new(alloc);
    'pairs: for index in 0..array.len() {
        let Some((key, value)) = array.at(index) else {
            return Value::array(alloc, list);
        };
        push(&mut list, value_on(side, key, value)?)?;
    }
    Value::array(alloc, list)
}

/// Puts the string of these bytes last.
fn push_text(alloc: Global, list: &mut OrdMap<Value>, bytes: &[u8]) -> Result<(), AllocError>
    ensures { OnOk result (array_map value_of list.new ≡ append (array_map value_of list.old) (Str bytes.now)) }
{
    push(list, Value::Str(Bytes::from_slice(alloc, bytes)?))
}

/// The list of the pieces between separators (`explode`).
pub fn exploded(alloc: Global, separator: &[u8], bytes: &[u8]) -> Result<Value, AllocError>
    requires { 0 < length separator.now }
    ensures { IfOk result (λ list. value_of list ≡ array_value (list_array (map Str (explode separator.now bytes.now)))) }
{
    let finder = Finder::new(separator);
    let mut list = OrdMap::new(alloc);
    let mut rest = bytes;
    'pieces: while let Some((piece, behind)) = split_first(&finder, rest) {
        push_text(alloc, &mut list, piece)?;
        rest = behind;
    }
    push_text(alloc, &mut list, rest)?;
    Value::array(alloc, list)
}
