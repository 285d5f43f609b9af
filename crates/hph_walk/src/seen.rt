//! What a walk sees.
ghost use Rattle.std.specs.Prelude.{◌≡◌, None, Some, IfOk, if◌then◌else◌};
ghost use Rattle.std.specs.Option.{option_map};
ghost use Rattle.hph_php.specs.Paths.{byte_value, unless_null};
ghost use Rattle.hph_value.specs.Shown.{value_of};
ghost use Rattle.hph_walk.specs.Seen.{seen_value};

use hph_array::Bytes;
use hph_value::Value;
use std::alloc::{AllocError, Global};

/// What stands behind the steps so far.
#[derive(Drop)]
pub(crate) enum Seen<'a> {
    /// A value that is held.
    Held(&'a Value),
    /// A string of one byte of another.
    Byte(u8),
    /// The empty string, of which another has no byte.
    NoByte,
    /// Null, where nothing is held.
    Unset,
}

/// The string of a byte, or of none.
pub(crate) fn byte_seen<'a>(byte: Option<u8>) -> Seen<'a>
    ensures { seen_value result ≡ byte_value byte }
{
    match byte {
        Some(byte) => Seen::Byte(byte),
        None => Seen::NoByte,
    }
}

impl<'a> Seen<'a> {
    /// A copy of the value.
    #[tactic(auto, using(crate::proofs::Walks::shown))]
    pub(crate) fn copied(self, alloc: Global) -> Result<Value, AllocError>
        ensures { IfOk result (λ value. value_of value ≡ seen_value self.entry) }
    {
        match self {
            Seen::Held(value) => value.clone(),
            Seen::Byte(byte) => Ok(Value::Str(Bytes::from_slice(alloc, &[byte])?)),
            Seen::NoByte => Ok(Value::Str(Bytes::from_slice(alloc, &[])?)),
            Seen::Unset => Ok(Value::Null),
        }
    }
    /// Whether the value is null.
    #[tactic(auto, using(crate::proofs::Walks::shown))]
    fn is_null(&self) -> bool
        ensures { unless_null (seen_value self.now) ≡ (if result then None else Some (seen_value self.now)) }
    {
        match self {
            Seen::Held(value) => match value {
                Value::Null => true,
                _ => false,
            },
            Seen::Byte(_) | Seen::NoByte => false,
            Seen::Unset => true,
        }
    }

    /// A copy of the value, unless it is null.
    pub(crate) fn unless_null(self, alloc: Global) -> Result<Option<Value>, AllocError>
        ensures { IfOk result (λ value. option_map value_of value ≡ unless_null (seen_value self.entry)) }
    {
        if self.is_null() {
            Ok(None)
        } else {
            Ok(Some(self.copied(alloc)?))
        }
    }
}
