ghost use Rattle.std.specs.Prelude.{◌≡◌};
ghost use Rattle.hph_num.specs.Arithmetic.{quotient_of, remainder_of};

use crate::fault::NumFault;

/// `a / b` where it is exact; DivZero by 0 (PHP manual, Arithmetic Operators).
///
/// NotWhole where there is a remainder, else Overflow past 64 bits, where PHP gives a float (this project's own).
pub fn div(a: i64, b: i64) -> Result<i64, NumFault>
    ensures { result ≡ quotient_of a b }
{
    if rem(a, b)? == 0 {
        a.checked_div(b).ok_or(NumFault::Overflow)
    } else {
        Err(NumFault::NotWhole)
    }
}

/// `a % b`, with the sign of `a`; DivZero by 0 (PHP manual, Arithmetic Operators).
pub fn rem(a: i64, b: i64) -> Result<i64, NumFault>
    ensures { result ≡ remainder_of a b }
{
    if b == 0 {
        Err(NumFault::DivZero)
    } else {
        Ok(a.wrapping_rem(b))
    }
}
