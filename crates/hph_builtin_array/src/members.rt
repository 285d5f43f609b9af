//! What an array has.
ghost use Rattle.std.specs.Prelude.{◌≡◌, Ok, if◌then◌else◌, is_some};
ghost use Rattle.std.specs.Map.{values_of};
ghost use Rattle.hph_array.specs.Array.{array_map, get};
ghost use Rattle.hph_php.specs.Builtins as php;
ghost use Rattle.hph_php.specs.Comparison.{loosely_equal, identical};
ghost use Rattle.hph_php.specs.Conversions.{map_ok, to_key};
ghost use Rattle.hph_value.specs.Shown.{value_of, TellsBy};

use hph_array::OrdMap;
use hph_equal::{loose_eq, strict_eq};
use hph_value::{Stop, Value, to_key};
use std::alloc::Global;

/// `===` or `==`
fn equals(alloc: Global, strict: bool, x: &Value, y: &Value) -> Result<bool, Stop>
    ensures { TellsBy (λ equal. equal) result (if strict then Ok (identical (value_of x.now) (value_of y.now)) else loosely_equal (value_of x.now) (value_of y.now)) }
{
    if strict {
        strict_eq(alloc, x, y)
    } else {
        loose_eq(alloc, x, y)
    }
}

/// Whether a value of an array equals this one, by `===` or by `==` (`in_array`). A fatal error is that of the first
/// comparison that has one.
pub fn is_among(
    alloc: Global,
    strict: bool,
    value: &Value,
    array: &OrdMap<Value>,
) -> Result<bool, Stop>
    ensures { TellsBy (λ there. there) result (php.is_among strict (value_of value.now) (values_of (array_map value_of array.now).pairs)) }
{
    'values: for index in 0..array.len() {
        let Some((_, other)) = array.at(index) else {
            return Ok(false);
        };
        match equals(alloc, strict, value, other) {
            Err(stop) => return Err(stop),
            Ok(true) => return Ok(true),
            Ok(false) => {}
        }
    }
    Ok(false)
}

/// Whether an array has the key that a value is (`array_key_exists`). `IllegalOffset` for arrays and objects.
pub fn has_key(alloc: Global, value: &Value, array: &OrdMap<Value>) -> Result<bool, Stop>
    ensures { TellsBy (λ there. there) result (map_ok (λ key. is_some (get (array_map value_of array.now) key)) (to_key (value_of value.now))) }
{
    match to_key(alloc, value) {
        Err(stop) => Err(stop),
        Ok(key) => Ok(array.get(&key).is_some()),
    }
}
