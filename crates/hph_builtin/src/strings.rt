//! Functions of strings (PHP manual, String Functions).
ghost use Rattle.std.specs.Prelude.{◌∷◌, []};
ghost use Rattle.std.specs.Option.{ok_or};
ghost use Rattle.hph_php.specs.Builtins as php;
ghost use Rattle.hph_php.specs.Conversions.{map_ok};
ghost use Rattle.hph_php.specs.StringFunctions.{substr, strpos, offset_in};
ghost use Rattle.hph_php.specs.Values.{Str};
ghost use Rattle.hph_value.specs.Shown.{value_of, Tells};

use crate::arguments::{array_argument, length_argument, number_argument, text_argument};
use hph_array::Bytes;
use hph_builtin_array::{exploded, imploded};
use hph_builtin_text::{
    byte_of, first_byte, lower_case, offset_in, part, place_from, repeated, reversed, trimmed,
    upper_case,
};
use hph_php::{Builtin, Fatal};
use hph_value::{Stop, Value};
use std::alloc::Global;

/// The number of bytes of a text (`strlen`).
#[tactic(auto, using(crate::proofs::Shown::shown))]
pub fn strlen(alloc: Global, string: &Value) -> Result<Value, Stop>
    ensures { Tells result (php.builtin_of Builtin.Strlen (value_of string.now ∷ [])).value }
{
    let text = text_argument(alloc, string)?;
    Ok(Value::Int(text.len() as i64))
}

/// The first byte of a text, or 0 (`ord`).
#[tactic(auto, using(crate::proofs::Shown::shown))]
pub fn ord(alloc: Global, string: &Value) -> Result<Value, Stop>
    ensures { Tells result (php.builtin_of Builtin.Ord (value_of string.now ∷ [])).value }
{
    let text = text_argument(alloc, string)?;
    Ok(Value::Int(i64::from(first_byte(text.as_slice()))))
}

/// The string of one byte, a number modulo 256 (`chr`).
#[tactic(auto, using(crate::proofs::Shown::shown))]
pub fn chr(alloc: Global, code: &Value) -> Result<Value, Stop>
    ensures { Tells result (php.builtin_of Builtin.Chr (value_of code.now ∷ [])).value }
{
    let number = number_argument(code)?;
    Ok(Value::Str(Bytes::from_slice(alloc, &[byte_of(number)])?))
}

/// The bytes of a text in the opposite order (`strrev`).
#[tactic(auto, using(crate::proofs::Shown::shown))]
pub fn strrev(alloc: Global, string: &Value) -> Result<Value, Stop>
    ensures { Tells result (php.builtin_of Builtin.Strrev (value_of string.now ∷ [])).value }
{
    let text = text_argument(alloc, string)?;
    Ok(Value::Str(reversed(alloc, text.as_slice())?))
}

/// A text with ASCII letters in lower case (`strtolower`).
#[tactic(auto, using(crate::proofs::Shown::shown))]
pub fn strtolower(alloc: Global, string: &Value) -> Result<Value, Stop>
    ensures { Tells result (php.builtin_of Builtin.Strtolower (value_of string.now ∷ [])).value }
{
    let text = text_argument(alloc, string)?;
    Ok(Value::Str(lower_case(alloc, text.as_slice())?))
}

/// A text with ASCII letters in upper case (`strtoupper`).
#[tactic(auto, using(crate::proofs::Shown::shown))]
pub fn strtoupper(alloc: Global, string: &Value) -> Result<Value, Stop>
    ensures { Tells result (php.builtin_of Builtin.Strtoupper (value_of string.now ∷ [])).value }
{
    let text = text_argument(alloc, string)?;
    Ok(Value::Str(upper_case(alloc, text.as_slice())?))
}

/// A text without space, tab, LF, CR, 0 and VT at both ends (`trim`).
#[tactic(auto, using(crate::proofs::Shown::shown))]
pub fn trim(alloc: Global, string: &Value) -> Result<Value, Stop>
    ensures { Tells result (php.builtin_of Builtin.Trim (value_of string.now ∷ [])).value }
{
    let text = text_argument(alloc, string)?;
    Ok(Value::Str(Bytes::from_slice(alloc, trimmed(text.as_slice()))?))
}

/// The part of a text from a start on, all or of a length.
#[tactic(auto, using(crate::proofs::Shown::shown))]
fn part_of(alloc: Global, text: &Bytes, start: i64, length: &Value) -> Result<Value, Stop>
    ensures { Tells result (map_ok (λ len. Str (substr text.now start len)) (php.length_argument (value_of length.now))) }
{
    let length = length_argument(length)?;
    Ok(Value::Str(Bytes::from_slice(alloc, part(text.as_slice(), start, length))?))
}

/// The part of a text from a start on, all or of a length (`substr`).
pub fn substr(alloc: Global, string: &Value, start: &Value, length: &Value) -> Result<Value, Stop>
    ensures { Tells result (php.builtin_of Builtin.Substr (value_of string.now ∷ value_of start.now ∷ value_of length.now ∷ [])).value }
{
    let text = text_argument(alloc, string)?;
    let start = number_argument(start)?;
    part_of(alloc, &text, start, length)
}

/// The place of a text in another from an offset on, or false. `BadArgument` for an offset outside of it.
#[tactic(auto, using(crate::proofs::Shown::shown))]
fn place_of(text: &Bytes, needle: &Bytes, offset: i64) -> Result<Value, Stop>
    ensures { Tells result (map_ok (λ at. php.place_or_false (strpos text.now needle.now at)) (ok_or (offset_in text.now offset) Fatal.BadArgument)) }
{
    let Some(offset) = offset_in(text.as_slice(), offset) else {
        return Err(Stop::Fatal(Fatal::BadArgument));
    };
    match place_from(text.as_slice(), needle.as_slice(), offset) {
        Some(place) => Ok(Value::Int(place as i64)),
        None => Ok(Value::Bool(false)),
    }
}

/// The place of the second text in the first from an offset on, or false (`strpos`). `BadArgument` for an offset outside of it.
pub fn strpos(
    alloc: Global,
    haystack: &Value,
    needle: &Value,
    offset: &Value,
) -> Result<Value, Stop>
    ensures { Tells result (php.builtin_of Builtin.Strpos (value_of haystack.now ∷ value_of needle.now ∷ value_of offset.now ∷ [])).value }
{
    let text = text_argument(alloc, haystack)?;
    let needle = text_argument(alloc, needle)?;
    let offset = number_argument(offset)?;
    place_of(&text, &needle, offset)
}

/// A text so many times. `BadArgument` for a negative number.
#[tactic(auto, using(crate::proofs::Shown::shown))]
fn repeats_of(alloc: Global, text: &Bytes, times: i64) -> Result<Value, Stop>
    ensures { Tells result (php.repeated text.now times) }
{
    if times < 0 {
        return Err(Stop::Fatal(Fatal::BadArgument));
    }
    Ok(Value::Str(repeated(alloc, text.as_slice(), times as u64)?))
}

/// A text so many times (`str_repeat`). `BadArgument` for a negative number.
pub fn str_repeat(alloc: Global, string: &Value, times: &Value) -> Result<Value, Stop>
    ensures { Tells result (php.builtin_of Builtin.StrRepeat (value_of string.now ∷ value_of times.now ∷ [])).value }
{
    let text = text_argument(alloc, string)?;
    let times = number_argument(times)?;
    repeats_of(alloc, &text, times)
}

/// The texts of the values of an array, joined by a text (`implode`). `ObjectUse` where an object is among them.
#[tactic(auto, using(crate::proofs::Shown::shown))]
pub fn implode(alloc: Global, separator: &Value, array: &Value) -> Result<Value, Stop>
    ensures { Tells result (php.builtin_of Builtin.Implode (value_of separator.now ∷ value_of array.now ∷ [])).value }
{
    let separator = text_argument(alloc, separator)?;
    let pairs = array_argument(array)?;
    Ok(Value::Str(imploded(alloc, separator.as_slice(), pairs)?))
}

/// The pieces of a text between separators. `BadArgument` for an empty separator.
fn pieces_of(alloc: Global, separator: &Bytes, text: &Bytes) -> Result<Value, Stop>
    ensures { Tells result (php.exploded separator.now text.now) }
{
    if separator.is_empty() {
        return Err(Stop::Fatal(Fatal::BadArgument));
    }
    Ok(exploded(alloc, separator.as_slice(), text.as_slice())?)
}

/// The pieces of the second text between the first (`explode`). `BadArgument` where the first is empty.
pub fn explode(alloc: Global, separator: &Value, string: &Value) -> Result<Value, Stop>
    ensures { Tells result (php.builtin_of Builtin.Explode (value_of separator.now ∷ value_of string.now ∷ [])).value }
{
    let separator = text_argument(alloc, separator)?;
    let text = text_argument(alloc, string)?;
    pieces_of(alloc, &separator, &text)
}
