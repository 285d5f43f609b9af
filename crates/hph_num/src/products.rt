ghost use Rattle.std.specs.Prelude.{◌≡◌, ◌+◌, ◌-◌, ◌%◌, ◌^◌, ◌*ℤ◌, not, nat_lt, if◌then◌else◌};
ghost use Rattle.hph_num.specs.Range.{fits_i64, largest_size};
ghost use Rattle.hph_num.specs.Arithmetic.{product_of, power_of};

use crate::fault::NumFault;

/// The largest size of a negative number within 64 bits, or of another.
fn largest_size(is_negative: bool) -> u64
    ensures { result ≡ largest_size is_negative }
{
    if is_negative {
        i64::MIN.unsigned_abs()
    } else {
        i64::MAX.unsigned_abs()
    }
}

/// Whether `a * b` is past 64 bits, found by a division (this project's own).
pub fn mul_overflows(a: i64, b: i64) -> bool
    ensures { result ≡ not (fits_i64 (a *ℤ b)) }
{
    let size = b.unsigned_abs();
    size != 0 && largest_size((a < 0) != (b < 0)) / size < a.unsigned_abs()
}

/// `a * b`, or Overflow past 64 bits (PHP manual, Arithmetic Operators; the fault is this project's own).
pub fn mul(a: i64, b: i64) -> Result<i64, NumFault>
    ensures { result ≡ product_of a b }
{
    if mul_overflows(a, b) {
        Err(NumFault::Overflow)
    } else {
        Ok(a * b)
    }
}

/// An exponent below 66, to which a number's power within 64 bits is the same.
///
/// From 64 on only 0, 1 and -1 have such powers, and these depend on the exponent's parity alone.
fn short_exponent(exponent: u64) -> u32
    ensures { result ≡ (if nat_lt exponent 64 then exponent else 64 + exponent % 2) }
{
    if exponent < 64 {
        exponent as u32
    } else {
        64 + (exponent % 2) as u32
    }
}

/// `a ** b`, where `0 ** 0` is 1 (PHP manual, Arithmetic Operators).
///
/// NotWhole for a negative exponent, else Overflow past 64 bits, where PHP gives a float (this project's own).
pub fn pow(a: i64, b: i64) -> Result<i64, NumFault>
    ensures { result ≡ power_of a b }
{
    if b < 0 {
        Err(NumFault::NotWhole)
    } else {
        a.checked_pow(short_exponent(b.unsigned_abs()))
            .ok_or(NumFault::Overflow)
    }
}
