//! Single bytes, and strings byte by byte.
ghost use Rattle.std.specs.Prelude.{◌≡◌, IfOk, map, reverse};
ghost use Rattle.std.specs.Char.{to_ascii_lowercase, to_ascii_uppercase};
ghost use Rattle.hph_php.specs.StringFunctions as php;

use hph_array::Bytes;
use std::alloc::{AllocError, Global};

/// The first byte, or 0 where there is none (`ord`).
pub fn first_byte(bytes: &[u8]) -> u8
    ensures { result ≡ php.first_byte bytes.now }
{
    match bytes {
        [first, ..] => *first,
        [] => 0,
    }
}

/// The remainder of a number by 256 that isn't negative (`chr`).
pub fn byte_of(number: i64) -> u8
    ensures { result ≡ php.byte_of number }
{
    if number < 0 {
        255 - (!number as u64 % 256) as u8
    } else {
        (number as u64 % 256) as u8
    }
}

/// The bytes in the opposite order (`strrev`).
pub fn reversed(alloc: Global, bytes: &[u8]) -> Result<Bytes, AllocError>
    ensures { IfOk result (λ all. all ≡ reverse bytes.now) }
{
    let mut all = Vec::from_slice(alloc, bytes)?;
    all.reverse();
    Bytes::new(alloc, all)
}

/// The bytes with ASCII letters in lower case (`strtolower`).
pub fn lower_case(alloc: Global, bytes: &[u8]) -> Result<Bytes, AllocError>
    ensures { IfOk result (λ all. all ≡ map to_ascii_lowercase bytes.now) }
{
    let mut all = Vec::from_slice(alloc, bytes)?;
    all.make_ascii_lowercase();
    Bytes::new(alloc, all)
}

/// The bytes with ASCII letters in upper case (`strtoupper`).
pub fn upper_case(alloc: Global, bytes: &[u8]) -> Result<Bytes, AllocError>
    ensures { IfOk result (λ all. all ≡ map to_ascii_uppercase bytes.now) }
{
    let mut all = Vec::from_slice(alloc, bytes)?;
    all.make_ascii_uppercase();
    Bytes::new(alloc, all)
}
