//! Numbers in strings (PHP manual, Numeric strings).
ghost use Rattle.std.specs.Prelude.{◌≡◌, ◌==◌, ◌&&◌, ◌||◌, ℕ, drop, if◌then◌else◌};
ghost use Rattle.hph_ast.specs.Bytes.{is_digit, begins_with, behind};
ghost use Rattle.hph_ast.specs.Numbers as scanned;
ghost use Rattle.hph_php.specs.NumericStrings as php;
ghost use Rattle.hph_value.specs.Numerics.{numeric_seen};

use crate::decimal::{begins_with_digit, behind_digits, digits, size_of_digits};

/// What bytes are as a number.
#[derive(Clone, Copy, Debug, PartialEq, Eq)]
pub enum Numeric {
    NoNumber,
    /// A whole number of 64 bits.
    Whole(i64),
    /// A number with a fraction, an exponent or more digits, for which PHP has a float.
    FloatLike,
}

/// Whether a byte is a space, tab, LF, VT, FF or CR.
fn is_space(byte: u8) -> bool
    ensures { result ≡ php.is_space byte }
{
    byte == b' ' || (9 <= byte && byte <= 13)
}

/// What stands behind the spaces at the front.
fn behind_spaces(bytes: &[u8]) -> &[u8]
    ensures { result.now ≡ behind php.is_space bytes.now }
{
    let mut rest = bytes;
    while let [first, after @ ..] = rest {
        if !is_space(*first) {
            break;
        }
        rest = after;
    }
    rest
}

/// Whether a `-` stands first.
fn is_negative(bytes: &[u8]) -> bool
    ensures { result ≡ begins_with (λ b. b == 45) bytes.now }
{
    match bytes {
        [first, ..] => *first == b'-',
        [] => false,
    }
}

/// What stands behind a sign, or all where there is none.
fn behind_sign(bytes: &[u8]) -> &[u8]
    ensures { result.now ≡ php.behind_sign bytes.now }
{
    match bytes {
        [b'+' | b'-', rest @ ..] => rest,
        _ => bytes,
    }
}

/// Whether a point stands at the front, with a digit before it or behind it.
fn has_fraction(some_digit: bool, rest: &[u8]) -> bool
    ensures { result ≡ (begins_with (λ b. b == 46) rest.now && (some_digit || begins_with is_digit (drop 1 rest.now))) }
{
    match rest {
        [b'.', after @ ..] => some_digit || begins_with_digit(after),
        _ => false,
    }
}

/// What stands behind a fraction at the front, if there is one.
fn behind_fraction(fraction: bool, rest: &[u8]) -> &[u8]
    ensures { result.now ≡ (if fraction then behind is_digit (drop 1 rest.now) else rest.now) }
{
    match rest {
        [_, after @ ..] if fraction => behind_digits(after),
        _ => rest,
    }
}

/// Whether a sign or none, and a digit stand at the front.
fn begins_signed_digit(bytes: &[u8]) -> bool
    ensures { result ≡ scanned.begins_signed_digit bytes.now }
{
    match bytes {
        [b'+' | b'-', digit, ..] | [digit, ..] => digit.is_ascii_digit(),
        [] => false,
    }
}

/// Whether an exponent stands at the front: `e` in either case, a sign or none, and a digit.
fn begins_exponent(bytes: &[u8]) -> bool
    ensures { result ≡ scanned.begins_exponent bytes.now }
{
    match bytes {
        [b'e' | b'E', rest @ ..] => begins_signed_digit(rest),
        _ => false,
    }
}

/// What stands behind an exponent, or all where there is none.
fn behind_exponent(bytes: &[u8]) -> &[u8]
    ensures { result.now ≡ php.behind_exponent bytes.now }
{
    match bytes {
        [_, rest @ ..] if begins_exponent(bytes) => behind_digits(behind_sign(rest)),
        _ => bytes,
    }
}

/// The number of these digits, with its sign.
fn whole_number(negative: bool, digits: &[u8]) -> Numeric
    ensures { numeric_seen result ≡ php.within (php.whole negative digits.now) }
{
    let size = size_of_digits(digits);
    if size < 1 << 63 {
        let number = size as i64;
        Numeric::Whole(if negative { -number } else { number })
    } else if negative && size == 1 << 63 {
        Numeric::Whole(i64::MIN)
    } else {
        Numeric::FloatLike
    }
}

/// What stands behind the number at the front, its fraction and exponent among it.
fn behind_number(bytes: &[u8]) -> &[u8]
    ensures { result.now ≡ php.behind_exponent (php.behind_fraction bytes.now) }
{
    let unsigned = behind_sign(behind_spaces(bytes));
    let rest = behind_digits(unsigned);
    let fraction = has_fraction(begins_with_digit(unsigned), rest);
    behind_exponent(behind_fraction(fraction, rest))
}

/// The longest number that stands first, behind spaces.
pub fn leading_number(bytes: &[u8]) -> Numeric
    ensures { numeric_seen result ≡ php.leading_number bytes.now }
{
    let signed = behind_spaces(bytes);
    let unsigned = behind_sign(signed);
    let some_digit = begins_with_digit(unsigned);
    let rest = behind_digits(unsigned);
    let fraction = has_fraction(some_digit, rest);
    if !(some_digit || fraction) {
        Numeric::NoNumber
    } else if fraction || begins_exponent(behind_fraction(fraction, rest)) {
        Numeric::FloatLike
    } else {
        whole_number(is_negative(signed), digits(unsigned))
    }
}

/// What the whole string is as a number: behind its number stand spaces alone.
pub fn numeric_of(bytes: &[u8]) -> Numeric
    ensures { numeric_seen result ≡ php.numeric_of bytes.now }
{
    if behind_spaces(behind_number(bytes)).is_empty() {
        leading_number(bytes)
    } else {
        Numeric::NoNumber
    }
}
