//! Decimal digits, and the numbers that they spell.
ghost use Rattle.std.specs.Prelude.{◌≡◌, ◌+◌, ◌*◌, ◌≤◌, min, length};
ghost use Rattle.hph_ast.specs.Bytes.{is_digit, digit_value, begins_with, front, behind};
ghost use Rattle.hph_ast.specs.Strings.{value_of};

/// Whether a digit stands first.
pub fn begins_with_digit(bytes: &[u8]) -> bool
    ensures { result ≡ begins_with is_digit bytes.now }
{
    match bytes {
        [first, ..] => first.is_ascii_digit(),
        [] => false,
    }
}

/// What stands behind the digits at the front.
pub fn behind_digits(bytes: &[u8]) -> &[u8]
    ensures behind { result.now ≡ behind is_digit bytes.now }
    ensures within { length result.now ≤ length bytes.now }
{
    let mut rest = bytes;
    while let [first, after @ ..] = rest {
        if !first.is_ascii_digit() {
            break;
        }
        rest = after;
    }
    rest
}

/// The digits at the front.
pub fn digits(bytes: &[u8]) -> &[u8]
    ensures { result.now ≡ front is_digit bytes.now }
{
    let rest = behind_digits(bytes);
    &bytes[..bytes.len() - rest.len()]
}

/// The value of a digit of any base up to 16, and 16 for any other byte.
fn digit_value(byte: u8) -> u8
    ensures value { result ≡ digit_value byte }
    ensures small { result ≤ 16 }
{
    match byte {
        b'0'..=b'9' => byte - b'0',
        b'a'..=b'f' => byte - b'a' + 10,
        b'A'..=b'F' => byte - b'A' + 10,
        _ => 16,
    }
}

/// All sizes from this one on are told as it: no number of 64 bits has one as great.
pub const LARGE_SIZE: u64 = (1 << 63) + 1;

/// The number that digits spell, or `LARGE_SIZE` where it is greater.
pub fn size_of_digits(digits: &[u8]) -> u64
    ensures { result ≡ min (value_of 10 digits.now) LARGE_SIZE }
{
    let mut size = 0;
    for digit in digits {
        size = with_digit(size, digit_value(*digit));
    }
    size
}

/// The size of digits and one more, or `LARGE_SIZE` where it is greater.
fn with_digit(size: u64, digit: u8) -> u64
    ensures { result ≡ min (10 * size + digit) LARGE_SIZE }
{
    let size = 10 * u128::from(size) + u128::from(digit);
    size.min(u128::from(LARGE_SIZE)) as u64
}
