//! Where strings stand in one another. No call takes memory.
ghost use Rattle.std.specs.Prelude.{◌≡◌, ◌+◌, ◌<◌, ◌≤◌, ◌^◌, length, IfSome};
ghost use Rattle.hph_php.specs.StringFunctions as php;
ghost use Rattle.hph_builtin_text.specs.Splits.{Splits};

use memchr::memmem::{self, Finder};

/// The place that an offset is, which counts from the end where it is negative; None outside of the string.
pub fn offset_in(bytes: &[u8], offset: i64) -> Option<usize>
    ensures { result ≡ php.offset_in bytes.now offset }
{
    let size = bytes.len();
    let distance = offset.unsigned_abs();
    if distance > size as u64 {
        None
    } else if offset < 0 {
        Some(size - distance as usize)
    } else {
        Some(distance as usize)
    }
}

/// The first place where the needle stands.
#[tactic(auto, using(crate::proofs::Found::found_place, crate::proofs::Found::found_within))]
pub fn first_place(needle: &[u8], bytes: &[u8]) -> Option<usize>
    ensures value { result ≡ php.first_place needle.now bytes.now }
    ensures within { IfSome result (λ place. place + length needle.now ≤ length bytes.now) }
{
    memmem::find(bytes, needle)
}

/// The first place from an offset on where the needle stands, counted from the start (`strpos`).
pub fn place_from(bytes: &[u8], needle: &[u8], offset: usize) -> Option<usize>
    requires { offset ≤ length bytes.now }
    ensures value { result ≡ php.strpos bytes.now needle.now offset }
    ensures small { IfSome result (λ place. place < 2 ^ 63) }
{
    match first_place(needle, &bytes[offset..]) {
        Some(place) => Some(offset + place),
        None => None,
    }
}

/// The first place where a needle stands that is prepared for many searches.
#[tactic(auto, using(crate::proofs::Found::found_place, crate::proofs::Found::found_within))]
fn found_place(needle: &Finder<'_>, bytes: &[u8]) -> Option<usize>
    ensures value { result ≡ php.first_place needle.now bytes.now }
    ensures within { IfSome result (λ place. place + length needle.now ≤ length bytes.now) }
{
    needle.find(bytes)
}

/// The bytes in front of the first separator and those behind it; None where there is no separator.
pub fn split_first<'b>(separator: &Finder<'_>, bytes: &'b [u8]) -> Option<(&'b [u8], &'b [u8])>
    requires { 0 < length separator.now }
    ensures { Splits separator.now bytes.now result }
{
    let size = separator.needle().len();
    match found_place(separator, bytes) {
        Some(place) => Some((&bytes[..place], &bytes[place + size..])),
        None => None,
    }
}
