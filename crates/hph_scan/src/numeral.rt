//! How a number is written: its base and its digits (PHP manual, Integers and Floating point numbers).
ghost use Rattle.std.specs.Prelude.{◌≡◌, ◌≤◌, ◌+◌, ◌*◌, ◌&&◌, length, drop, min, codes, MatchOption};
ghost use Rattle.std.specs.Option.{option_map};
ghost use Rattle.hph_ast.specs.Bytes.{begins, begins_with, front};
ghost use Rattle.hph_ast.specs.Numbers.{is_run_byte, is_float, numeral, behind_digits, begins_exponent, begins_signed_digit};
ghost use Rattle.hph_scan.specs.Bytes.{contains};
ghost use Rattle.hph_scan.specs.Digits.{numeral_told, digit_told, goes_on, next_digit, behind_separator, HasNoValue, HasValue};

use crate::byte::{ByteClass, begins_word, digit_value};

/// A base, how many bytes stand before the digits, and the digits, which may be wrong.
#[derive(Clone, Copy, Debug)]
pub struct Numeral<'a> {
    pub base: u8,
    pub prefix: usize,
    pub run: &'a [u8],
}

/// How the number at the front is written: `0x`, `0b` and `0o` in either case, a leading `0` before more digits, and
/// all other numbers.
pub fn numeral_of(bytes: &[u8]) -> Numeral<'_>
    ensures told { numeral_told result ≡ numeral bytes.now }
    ensures base { result.base ≤ 16 }
    ensures within { result.prefix + length result.run.now ≤ length bytes.now }
{
    if begins_word(b"0x", bytes) {
        behind_prefix(16, ByteClass::HexadecimalRun, bytes)
    } else if begins_word(b"0b", bytes) {
        behind_prefix(2, ByteClass::Run, bytes)
    } else if begins_word(b"0o", bytes) {
        behind_prefix(8, ByteClass::Run, bytes)
    } else {
        Numeral {
            base: if has_leading_zero(bytes) { 8 } else { 10 },
            prefix: 0,
            run: ByteClass::Run.front(bytes),
        }
    }
}

/// The numeral whose base the first two bytes tell.
fn behind_prefix(base: u8, class: ByteClass, bytes: &[u8]) -> Numeral<'_>
    requires { 2 ≤ length bytes.now }
    ensures base { result.base ≡ base }
    ensures prefix { result.prefix ≡ 2 }
    ensures run { result.run.now ≡ front (contains class) (drop 2 bytes.now) }
    ensures within { 2 + length result.run.now ≤ length bytes.now }
{
    Numeral {
        base,
        prefix: 2,
        run: class.front(&bytes[2..]),
    }
}

/// Whether a `0` stands before more digits.
fn has_leading_zero(bytes: &[u8]) -> bool
    ensures { result ≡
        (begins (codes "0") bytes.now && begins_with is_run_byte (drop 1 bytes.now)) }
{
    match bytes {
        [b'0', next, ..] => ByteClass::Run.contains(*next),
        _ => false,
    }
}

/// All values from this one on are told as it: no whole number of PHP is as great.
pub const LONG_VALUE: u64 = 1 << 63;

/// The value of digits of a base with single `_` between them, or `LONG_VALUE` where it is greater. None where they are
/// no such digits.
pub fn value_of_run(base: u8, run: &[u8]) -> Option<u64>
    requires { base ≤ 16 }
    ensures { MatchOption result (HasNoValue base run.now) (HasValue base run.now) }
{
    let mut value = 0;
    let mut rest = run;
    loop {
        let (digit, after) = next_digit(base, rest)?;
        value = with_digit(base, value, digit);
        if after.is_empty() {
            return Some(value);
        }
        rest = after;
    }
}

/// The value of digits and one more, or `LONG_VALUE` where it is greater.
fn with_digit(base: u8, value: u64, digit: u8) -> u64
    ensures { result ≡ min (base * value + digit) LONG_VALUE }
{
    let value = u128::from(base) * u128::from(value) + u128::from(digit);
    value.min(u128::from(LONG_VALUE)) as u64
}

/// The digit of a base at the front, and what stands behind it and a `_` that goes on with more.
fn next_digit(base: u8, run: &[u8]) -> Option<(u8, &[u8])>
    ensures { option_map digit_told result ≡ next_digit base run.now }
{
    let [first, rest @ ..] = run else {
        return None;
    };
    let digit = digit_value(*first);
    if digit >= base {
        return None;
    }
    Some((digit, behind_separator(rest)))
}

/// What stands behind a `_`, where there is one and more behind it.
fn behind_separator(run: &[u8]) -> &[u8]
    ensures { result.now ≡ behind_separator run.now }
{
    match run {
        [b'_', rest @ ..] if !rest.is_empty() => rest,
        _ => run,
    }
}

/// Whether the number at the front has a fraction or an exponent.
pub fn is_float(bytes: &[u8]) -> bool
    ensures { result ≡ is_float bytes.now }
{
    match behind_digits(bytes) {
        [b'.', ..] => true,
        rest => begins_exponent(rest),
    }
}

/// What stands behind the longest decimal digits with single `_` between them.
fn behind_digits(bytes: &[u8]) -> &[u8]
    ensures { result.now ≡ behind_digits bytes.now }
{
    let mut rest = bytes;
    while let [_, after @ ..] = rest {
        if !goes_on(rest) {
            break;
        }
        rest = after;
    }
    rest
}

/// Whether a digit stands at the front, or a `_` before one.
fn goes_on(bytes: &[u8]) -> bool
    ensures { result ≡ goes_on bytes.now }
{
    match bytes {
        [b'_', digit, ..] | [digit, ..] => digit.is_ascii_digit(),
        [] => false,
    }
}

/// Whether `e`, a sign or none, and a digit stand at the front.
fn begins_exponent(bytes: &[u8]) -> bool
    ensures { result ≡ begins_exponent bytes.now }
{
    match bytes {
        [b'e' | b'E', rest @ ..] => begins_signed_digit(rest),
        _ => false,
    }
}

/// Whether a sign or none, and a digit stand at the front.
fn begins_signed_digit(bytes: &[u8]) -> bool
    ensures { result ≡ begins_signed_digit bytes.now }
{
    match bytes {
        [b'+' | b'-', digit, ..] | [digit, ..] => digit.is_ascii_digit(),
        [] => false,
    }
}
