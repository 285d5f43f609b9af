//! Bytes of strings by places (PHP manual, Strings).
ghost use Rattle.std.specs.Prelude.{◌≡◌};
ghost use Rattle.hph_php.specs.Paths as php;
ghost use Rattle.hph_value.specs.Shown.{value_of, TellsBy};
ghost use Rattle.hph_walk.specs.Seen.{seen_value};

use crate::seen::{Seen, byte_seen};
use hph_php::Fatal;
use hph_value::{Stop, Value};

/// The byte at a place, which counts from the end if it is negative.
pub(crate) fn byte_at(bytes: &[u8], place: i64) -> Option<u8>
    ensures { result ≡ php.byte_at bytes.now place }
{
    if place >= 0 {
        return bytes.get(place as usize).copied();
    }
    let back = place.unsigned_abs() as usize;
    if back > bytes.len() {
        return None;
    }
    bytes.get(bytes.len() - back).copied()
}

/// The byte of a string by a key, which has to be an int: `StringOffset` for others.
pub(crate) fn read_byte<'a>(bytes: &[u8], key: &Value) -> Result<Seen<'a>, Stop>
    ensures { TellsBy seen_value result (php.read_byte bytes.now (value_of key.now)) }
{
    match key {
        Value::Int(place) => Ok(byte_seen(byte_at(bytes, *place))),
        _ => Err(Stop::Fatal(Fatal::StringOffset)),
    }
}
