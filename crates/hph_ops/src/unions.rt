//! `+` of two arrays (PHP manual, Array Operators).
ghost use Rattle.std.specs.Prelude.{◌≡◌, IfOk, OnOk};
ghost use Rattle.hph_php.specs.Arrays as php;

use hph_array::{Key, OrdMap};
use hph_value::Value;
use std::alloc::AllocError;

/// The left array with the pairs of the right one whose keys it hasn't.
pub fn union(x: &OrdMap<Value>, y: &OrdMap<Value>) -> Result<OrdMap<Value>, AllocError>
    ensures { IfOk result (λ map. map ≡ php.union x.now y.now) }
{
    let mut map = x.copy()?;
    'pairs: for index in 0..y.len() {
        let Some((key, value)) = y.at(index) else {
            return Ok(map);
        };
        add_pair(&mut map, key, value)?;
    }
    Ok(map)
}

/// Puts a pair last, unless its key is there.
fn add_pair(map: &mut OrdMap<Value>, key: &Key, value: &Value) -> Result<(), AllocError>
    ensures { OnOk result (map.new ≡ php.with_new map.old (key.now, value.now)) }
{
    if map.get(key).is_some() {
        return Ok(());
    }
    map.set(key.clone()?, value.clone()?)?;
    Ok(())
}
