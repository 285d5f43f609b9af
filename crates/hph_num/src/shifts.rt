ghost use Rattle.std.specs.Prelude.{◌≡◌};
ghost use Rattle.hph_num.specs.Shifts.{shift_left_of, shift_right_of};

use crate::fault::NumFault;

/// `a << count`, without the bits that leave 64; NegativeShift for a negative count (PHP manual, Bitwise Operators).
pub fn shl(a: i64, count: i64) -> Result<i64, NumFault>
    ensures { result ≡ shift_left_of a count }
{
    if count < 0 {
        Err(NumFault::NegativeShift)
    } else if count < 64 {
        Ok(a << count as u32)
    } else {
        Ok(0)
    }
}

/// `a >> count`, which copies the sign; NegativeShift for a negative count (PHP manual, Bitwise Operators).
pub fn shr(a: i64, count: i64) -> Result<i64, NumFault>
    ensures { result ≡ shift_right_of a count }
{
    if count < 0 {
        Err(NumFault::NegativeShift)
    } else if count < 64 {
        Ok(a >> count as u32)
    } else {
        Ok(if a < 0 { -1 } else { 0 })
    }
}
