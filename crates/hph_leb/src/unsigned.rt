//! Unsigned integers (Core Specification 1.0, 5.2.2).
ghost use Rattle.std.specs.Prelude.{◌≡◌, ◌<◌, ◌≤◌, ◌++◌, ℕ, [], ◌∷◌, drop, MatchOption, OnOk};
ghost use Rattle.hph_wasm.specs.Leb128.{Unsigned, u32_bytes};
ghost use Rattle.hph_leb.specs.Reading.{IsReading};

use hph_wasm::numbers_in_range;
use std::alloc::AllocError;

/// Appends the shortest spelling of an unsigned number of 32 bits (Core Specification 1.0, 5.2.2).
/// Where memory runs out, some of its bytes may have been appended.
pub fn put_u32(into: &mut Vec<u8>, value: u32) -> Result<(), AllocError>
    ensures { OnOk result (into.new.items ≡ into.old.items ++ u32_bytes value) }
{
    let mut rest = value;
    while rest >= 128 {
        into.push((rest % 128) as u8 + 128)?;
        rest /= 128;
    }
    into.push(rest as u8)?;
    Ok(())
}

/// The unsigned number of 32 bits that is spelled at `at`, and the length of its spelling in bytes.
/// None exactly where no such number is spelled there (Core Specification 1.0, 5.2.2).
pub fn get_u32(bytes: &[u8], at: usize) -> Option<(u32, usize)>
    ensures { IsReading (Unsigned 32) (drop at bytes.now) result }
{
    read_unsigned(bytes.get(at..)?, 32)
}

/// The unsigned number of so many bits that the bytes begin with, and the length of its spelling.
fn read_unsigned(bytes: &[u8], bits: u32) -> Option<(u32, usize)>
    requires { bits ≤ 32 }
    ensures { IsReading (Unsigned bits) bytes.now result }
{
    let [first, rest @ ..] = bytes else {
        return None;
    };
    if *first < 128 {
        let value = last_unsigned(*first, bits)?;
        return Some((value, 1));
    }
    if bits <= 7 {
        return None;
    }
    let (high, length) = read_unsigned(rest, bits - 7)?;
    numbers_in_range(); // the bits above leave room for seven more
    Some((high * 128 + u32::from(*first - 128), length + 1))
}

/// The unsigned number that one byte spells: the bits above its own are zeros.
fn last_unsigned(byte: u8, bits: u32) -> Option<u32>
    requires last { byte < 128 }
    requires few { bits ≤ 32 }
    ensures { MatchOption result ((n : ℕ) → ¬ Unsigned bits n (byte ∷ []))
        (λ n. Unsigned bits n (byte ∷ [])) }
{
    if u64::from(byte) < 1 << bits {
        Some(u32::from(byte))
    } else {
        None
    }
}
