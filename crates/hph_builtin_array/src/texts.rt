//! Texts of values, joined.
ghost use Rattle.std.specs.Prelude.{◌≡◌, ◌++◌};
ghost use Rattle.std.specs.Map.{values_of};
ghost use Rattle.hph_array.specs.Array.{array_map};
ghost use Rattle.hph_php.specs.Builtins.{texts_of};
ghost use Rattle.hph_php.specs.Conversions.{map_ok, to_text};
ghost use Rattle.hph_php.specs.StringFunctions.{implode};
ghost use Rattle.hph_value.specs.Shown.{value_of, TellsBy};
ghost use Rattle.hph_builtin_array.specs.Sides.{lead};

use hph_array::{Bytes, OrdMap};
use hph_php::Fatal;
use hph_value::{Stop, Value};
use itoa::Buffer;
use std::alloc::Global;

/// Puts the text of a value last. `ObjectUse` for an object.
#[tactic(auto, using(crate::proofs::Shown::shown))]
fn push_text(text: &mut Vec<u8>, value: &Value) -> Result<(), Stop>
    ensures { TellsBy (λ _. text.new.items) result (map_ok (λ more. text.old.items ++ more) (to_text (value_of value.now))) }
{
    match value {
        Value::Null | Value::Bool(false) => Ok(()),
        Value::Bool(true) => Ok(text.extend_from_slice(b"1")?),
        Value::Int(number) => {
            let mut digits = Buffer::new();
            Ok(text.extend_from_slice(digits.format(*number).as_bytes())?)
        }
        Value::Str(bytes) => Ok(text.extend_from_slice(bytes.as_slice())?),
        Value::Arr(_) => Ok(text.extend_from_slice(b"Array")?),
        Value::Obj(_) => Err(Stop::Fatal(Fatal::ObjectUse)),
    }
}

/// Puts the text of a value last, behind the separator where it isn't the first value.
fn push_next(text: &mut Vec<u8>, separator: &[u8], index: usize, value: &Value) -> Result<(), Stop>
    ensures { TellsBy (λ _. text.new.items) result (map_ok (λ more. (text.old.items ++ lead separator.now index) ++ more) (to_text (value_of value.now))) }
{
    if index > 0 {
        text.extend_from_slice(separator)?;
    }
    push_text(text, value)
}

/// The texts of the values of an array, joined (`implode`). `ObjectUse` where an object is among them.
pub fn imploded(alloc: Global, separator: &[u8], array: &OrdMap<Value>) -> Result<Bytes, Stop>
    ensures { TellsBy (λ text. text) result (map_ok (λ texts. implode separator.now texts) (texts_of (values_of (array_map value_of array.now).pairs))) }
{
    let mut text = Vec::new(alloc);
    'values: for index in 0..array.len() {
        let Some((_, value)) = array.at(index) else {
            return Ok(Bytes::new(alloc, text)?);
        };
        match push_next(&mut text, separator, index, value) {
            Err(stop) => return Err(stop),
            Ok(()) => {}
        }
    }
    Ok(Bytes::new(alloc, text)?)
}
