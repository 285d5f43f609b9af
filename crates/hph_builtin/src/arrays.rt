//! Functions of arrays (PHP manual, Array Functions).
ghost use Rattle.std.specs.Prelude.{◌∷◌, []};
ghost use Rattle.hph_php.specs.Builtins as php;
ghost use Rattle.hph_value.specs.Shown.{value_of, Tells};

use crate::arguments::array_argument;
use hph_builtin_array::{Side, has_key, is_among, list_of};
use hph_php::Builtin;
use hph_value::{Stop, Value, to_bool};
use std::alloc::Global;

/// The number of pairs of an array (`count`).
#[tactic(auto, using(crate::proofs::Shown::shown, crate::proofs::Shown::count_shown))]
pub fn count(array: &Value) -> Result<Value, Stop>
    ensures { Tells result (php.builtin_of Builtin.Count (value_of array.now ∷ [])).value }
{
    let pairs = array_argument(array)?;
    match i64::try_from(pairs.len()) {
        Ok(count) => Ok(Value::Int(count)),
        // No memory holds so many pairs.
        Err(_) => Err(Stop::NoMemory),
    }
}

/// The list of the keys of an array (`array_keys`).
pub fn array_keys(alloc: Global, array: &Value) -> Result<Value, Stop>
    ensures { Tells result (php.builtin_of Builtin.ArrayKeys (value_of array.now ∷ [])).value }
{
    let pairs = array_argument(array)?;
    Ok(list_of(alloc, Side::Keys, pairs)?)
}

/// The list of the values of an array (`array_values`).
pub fn array_values(alloc: Global, array: &Value) -> Result<Value, Stop>
    ensures { Tells result (php.builtin_of Builtin.ArrayValues (value_of array.now ∷ [])).value }
{
    let pairs = array_argument(array)?;
    Ok(list_of(alloc, Side::Values, pairs)?)
}

/// Whether a value of an array equals this one (`in_array`), by `===` where the third argument is true.
#[tactic(auto, using(crate::proofs::Shown::shown))]
pub fn in_array(
    alloc: Global,
    needle: &Value,
    haystack: &Value,
    strict: &Value,
) -> Result<Value, Stop>
    ensures { Tells result (php.builtin_of Builtin.InArray (value_of needle.now ∷ value_of haystack.now ∷ value_of strict.now ∷ [])).value }
{
    let pairs = array_argument(haystack)?;
    let there = is_among(alloc, to_bool(strict), needle, pairs)?;
    Ok(Value::Bool(there))
}

/// Whether an array has the key that a value is (`array_key_exists`). `IllegalOffset` for arrays and objects.
#[tactic(auto, using(crate::proofs::Shown::shown))]
pub fn array_key_exists(alloc: Global, key: &Value, array: &Value) -> Result<Value, Stop>
    ensures { Tells result (php.builtin_of Builtin.ArrayKeyExists (value_of key.now ∷ value_of array.now ∷ [])).value }
{
    let pairs = array_argument(array)?;
    let there = has_key(alloc, key, pairs)?;
    Ok(Value::Bool(there))
}
