//! Arithmetic and bits (PHP manual, Arithmetic Operators and Bitwise Operators). No call takes memory.
ghost use Rattle.std.specs.Prelude.{◌≡◌, Ok};
ghost use Rattle.std.specs.Int.{w64, int_bit_and, int_bit_or, int_bit_xor};
ghost use Rattle.hph_num.specs.Arithmetic.{sum_of, difference_of, negation_of, product_of, power_of, quotient_of, remainder_of};
ghost use Rattle.hph_num.specs.Shifts.{shift_left_of, shift_right_of};
ghost use Rattle.hph_php.specs.Conversions as php;
ghost use Rattle.hph_value.specs.Shown.{value_of};
ghost use Rattle.hph_ops.specs.Numbers.{numbers};

use hph_num::NumFault;
use hph_php::Fatal;
use hph_value::{Value, number_of};

/// The fatal error that a fault of whole numbers is.
fn fatal_of(fault: NumFault) -> Fatal
    ensures { result ≡ php.fatal_of fault }
{
    match fault {
        NumFault::Overflow => Fatal::Overflow,
        NumFault::DivZero => Fatal::DivZero,
        NumFault::NegativeShift => Fatal::NegativeShift,
        NumFault::NotWhole => Fatal::Float,
    }
}

/// The number, or the fatal error of its fault.
pub(crate) fn settled(number: Result<i64, NumFault>) -> Result<i64, Fatal>
    ensures { result ≡ php.settled number }
{
    match number {
        Ok(number) => Ok(number),
        Err(fault) => Err(fatal_of(fault)),
    }
}

/// `x + y` of numbers, where the operands are converted from left to right.
pub fn sum(x: &Value, y: &Value) -> Result<i64, Fatal>
    ensures { result ≡ numbers (λ a b. php.settled (sum_of a b)) (value_of x.now) (value_of y.now) }
{
    let a = number_of(x)?;
    let b = number_of(y)?;
    settled(hph_num::add(a, b))
}

/// `x - y`, where the operands are converted from left to right.
pub fn difference(x: &Value, y: &Value) -> Result<i64, Fatal>
    ensures { result ≡ numbers (λ a b. php.settled (difference_of a b)) (value_of x.now) (value_of y.now) }
{
    let a = number_of(x)?;
    let b = number_of(y)?;
    settled(hph_num::sub(a, b))
}

/// `x * y`, where the operands are converted from left to right.
pub fn product(x: &Value, y: &Value) -> Result<i64, Fatal>
    ensures { result ≡ numbers (λ a b. php.settled (product_of a b)) (value_of x.now) (value_of y.now) }
{
    let a = number_of(x)?;
    let b = number_of(y)?;
    settled(hph_num::mul(a, b))
}

/// `x / y`, where it is exact, where the operands are converted from left to right.
pub fn quotient(x: &Value, y: &Value) -> Result<i64, Fatal>
    ensures { result ≡ numbers (λ a b. php.settled (quotient_of a b)) (value_of x.now) (value_of y.now) }
{
    let a = number_of(x)?;
    let b = number_of(y)?;
    settled(hph_num::div(a, b))
}

/// `x % y`, where the operands are converted from left to right.
pub fn remainder(x: &Value, y: &Value) -> Result<i64, Fatal>
    ensures { result ≡ numbers (λ a b. php.settled (remainder_of a b)) (value_of x.now) (value_of y.now) }
{
    let a = number_of(x)?;
    let b = number_of(y)?;
    settled(hph_num::rem(a, b))
}

/// `x ** y`, where the operands are converted from left to right.
pub fn power(x: &Value, y: &Value) -> Result<i64, Fatal>
    ensures { result ≡ numbers (λ a b. php.settled (power_of a b)) (value_of x.now) (value_of y.now) }
{
    let a = number_of(x)?;
    let b = number_of(y)?;
    settled(hph_num::pow(a, b))
}

/// `x << y`, where the operands are converted from left to right.
pub fn shift_left(x: &Value, y: &Value) -> Result<i64, Fatal>
    ensures { result ≡ numbers (λ a b. php.settled (shift_left_of a b)) (value_of x.now) (value_of y.now) }
{
    let a = number_of(x)?;
    let b = number_of(y)?;
    settled(hph_num::shl(a, b))
}

/// `x >> y`, where the operands are converted from left to right.
pub fn shift_right(x: &Value, y: &Value) -> Result<i64, Fatal>
    ensures { result ≡ numbers (λ a b. php.settled (shift_right_of a b)) (value_of x.now) (value_of y.now) }
{
    let a = number_of(x)?;
    let b = number_of(y)?;
    settled(hph_num::shr(a, b))
}

/// `x & y` of numbers, where the operands are converted from left to right.
pub fn bit_and(x: &Value, y: &Value) -> Result<i64, Fatal>
    ensures { result ≡ numbers (λ a b. Ok (int_bit_and w64 a b)) (value_of x.now) (value_of y.now) }
{
    let a = number_of(x)?;
    let b = number_of(y)?;
    Ok(a & b)
}

/// `x | y` of numbers, where the operands are converted from left to right.
pub fn bit_or(x: &Value, y: &Value) -> Result<i64, Fatal>
    ensures { result ≡ numbers (λ a b. Ok (int_bit_or w64 a b)) (value_of x.now) (value_of y.now) }
{
    let a = number_of(x)?;
    let b = number_of(y)?;
    Ok(a | b)
}

/// `x ^ y` of numbers, where the operands are converted from left to right.
pub fn bit_xor(x: &Value, y: &Value) -> Result<i64, Fatal>
    ensures { result ≡ numbers (λ a b. Ok (int_bit_xor w64 a b)) (value_of x.now) (value_of y.now) }
{
    let a = number_of(x)?;
    let b = number_of(y)?;
    Ok(a ^ b)
}

/// `-x`
pub fn negation(x: &Value) -> Result<i64, Fatal>
    ensures { result ≡ php.and_then (php.number_of (value_of x.now)) (λ a. php.settled (negation_of a)) }
{
    let a = number_of(x)?;
    settled(hph_num::neg(a))
}
