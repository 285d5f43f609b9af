//! Whole numbers, and what begins like a float (PHP manual, Integers and Floating point numbers).
ghost use Rattle.hph_scan.specs.Numbers.{IsScanned};

use crate::numeral::{LONG_VALUE, Numeral, is_float, numeral_of, value_of_run};

/// What is spelled where a number begins.
#[derive(Clone, Copy, Debug, PartialEq, Eq)]
pub enum Number {
    /// A whole number below 2^63, and how many bytes spell it.
    Whole { value: u64, length: usize },
    /// A number with a fraction or an exponent, or a whole one from 2^63 on.
    Float,
    /// Digits that are none of their base, or a `_` that stands between no two digits.
    Bad,
}

/// The number that the bytes begin with (PHP manual, Integers): decimal, hexadecimal, octal or binary, with single `_`
/// between its digits.
pub fn scan_number(bytes: &[u8]) -> Number
    ensures { IsScanned bytes.now result }
{
    if is_float(bytes) {
        return Number::Float;
    }
    let Numeral { base, prefix, run } = numeral_of(bytes);
    let Some(value) = value_of_run(base, run) else {
        return Number::Bad;
    };
    if value >= LONG_VALUE {
        return Number::Float;
    }
    Number::Whole {
        value,
        length: prefix + run.len(),
    }
}
