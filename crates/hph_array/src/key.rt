ghost use Rattle.std.specs.Prelude.{◌≡◌, ◌≤◌, ◌^◌};
ghost use Rattle.std.specs.Cmp as Cmp;
ghost use Rattle.hph_array.specs.Key.{key_eq, key_eq_equiv, number_after};

use crate::bytes::Bytes;
use std::cmp::{Eq, PartialEq};

/// A key of an array (PHP manual, 'Arrays'): an int or a string.
#[derive(Drop, Clone, Hash)]
pub enum Key {
    /// An int.
    Int(i64),
    /// A string.
    Str(Bytes),
}

impl Key {
    /// The number after an int that isn't negative, 0 for other keys.
    pub(crate) fn number_after(&self) -> u64
        ensures value { result ≡ number_after self.now }
        ensures within { result ≤ 2 ^ 63 }
    {
        match self {
            Key::Int(number) if *number >= 0 => *number as u64 + 1,
            _ => 0,
        }
    }
}

impl PartialEq for Key {
    ghost eq = { key_eq };

    ghost laws = { Cmp.partial_equiv_from_equiv key_eq_equiv };

    fn eq(&self, other: &Key) -> bool {
        match (self, other) {
            (Key::Int(a), Key::Int(b)) => *a == *b,
            (Key::Str(a), Key::Str(b)) => *a == *b,
            _ => false,
        }
    }
}

impl Eq for Key {
    ghost laws = { key_eq_equiv };
}
