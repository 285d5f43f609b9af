//! Signed integers (Core Specification 1.0, 5.2.2).
ghost use Rattle.std.specs.Prelude.{◌≡◌, ◌<◌, ◌≤◌, ◌++◌, ℤ, [], ◌∷◌, drop, MatchOption, OnOk};
ghost use Rattle.hph_wasm.specs.Leb128.{Signed, i32_bytes, i64_bytes, fits_seven, low_seven, above_seven};
ghost use Rattle.hph_leb.specs.Reading.{IsReading};

use hph_wasm::numbers_in_range;
use std::alloc::AllocError;

/// Appends the shortest spelling of a signed number of 32 bits (Core Specification 1.0, 5.2.2).
/// Where memory runs out, some of its bytes may have been appended.
pub fn put_i32(into: &mut Vec<u8>, value: i32) -> Result<(), AllocError>
    ensures { OnOk result (into.new.items ≡ into.old.items ++ i32_bytes value) }
{
    put_i64(into, i64::from(value))
}

/// Appends the shortest spelling of a signed number of 64 bits (Core Specification 1.0, 5.2.2).
/// Where memory runs out, some of its bytes may have been appended.
pub fn put_i64(into: &mut Vec<u8>, value: i64) -> Result<(), AllocError>
    ensures { OnOk result (into.new.items ≡ into.old.items ++ i64_bytes value) }
{
    let mut rest = value;
    'bytes: while !is_one_byte(rest) {
        into.push(low_bits(rest) + 128)?;
        rest = high_bits(rest);
    }
    into.push(low_bits(rest))?;
    Ok(())
}

/// The signed number of 32 bits that is spelled at `at`, and the length of its spelling in bytes.
/// None exactly where no such number is spelled there (Core Specification 1.0, 5.2.2).
pub fn get_i32(bytes: &[u8], at: usize) -> Option<(i32, usize)>
    ensures { IsReading (Signed 32) (drop at bytes.now) result }
{
    let (value, length) = read_signed(bytes.get(at..)?, 32)?;
    numbers_in_range(); // 32 bits spell no number that is out of their range
    Some((value as i32, length))
}

/// The signed number of 64 bits that is spelled at `at`, and the length of its spelling in bytes.
/// None exactly where no such number is spelled there (Core Specification 1.0, 5.2.2).
pub fn get_i64(bytes: &[u8], at: usize) -> Option<(i64, usize)>
    ensures { IsReading (Signed 64) (drop at bytes.now) result }
{
    read_signed(bytes.get(at..)?, 64)
}

/// Whether seven bits, of which the highest is the sign, are enough.
fn is_one_byte(value: i64) -> bool
    ensures { result ≡ fits_seven value }
{
    -64 <= value && value < 64
}

/// The seven lowest bits.
fn low_bits(value: i64) -> u8
    ensures bits { result ≡ low_seven value }
    ensures small { result < 128 }
{
    value.rem_euclid(128) as u8
}

/// The bits above the seven lowest, with the sign.
fn high_bits(value: i64) -> i64
    ensures { result ≡ above_seven value }
{
    value.div_euclid(128)
}

/// The signed number of so many bits that the bytes begin with, and the length of its spelling.
fn read_signed(bytes: &[u8], bits: u32) -> Option<(i64, usize)>
    requires some { 0 < bits }
    requires few { bits ≤ 64 }
    ensures { IsReading (Signed bits) bytes.now result }
{
    let [first, rest @ ..] = bytes else {
        return None;
    };
    if *first < 128 {
        let value = last_signed(*first, bits)?;
        return Some((value, 1));
    }
    if bits <= 7 {
        return None;
    }
    let (high, length) = read_signed(rest, bits - 7)?;
    numbers_in_range(); // the bits above leave room for seven more
    Some((high * 128 + i64::from(*first - 128), length + 1))
}

/// The signed number that one byte spells: its seventh bit is the sign, and so are the bits above
/// the number's own.
fn last_signed(byte: u8, bits: u32) -> Option<i64>
    requires last { byte < 128 }
    requires some { 0 < bits }
    requires few { bits ≤ 64 }
    ensures { MatchOption result ((z : ℤ) → ¬ Signed bits z (byte ∷ []))
        (λ z. Signed bits z (byte ∷ [])) }
{
    let range: u64 = 1 << (bits - 1);
    if byte < 64 && u64::from(byte) < range {
        Some(i64::from(byte))
    } else if byte >= 64 && 128 <= u64::from(byte) + range {
        Some(i64::from(byte) - 128)
    } else {
        None
    }
}
