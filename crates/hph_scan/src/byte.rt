//! Classes of bytes, and digits (PHP manual, Basic syntax and Integers).
ghost use Rattle.std.specs.Prelude.{◌≡◌, ◌≤◌, length, take, min};
ghost use Rattle.hph_ast.specs.Bytes.{digit_value, is_letter, begins_word, front, behind};
ghost use Rattle.hph_ast.specs.Strings.{value_of};
ghost use Rattle.hph_scan.specs.Bytes.{contains};

/// A class of bytes.
#[derive(Clone, Copy, Debug, PartialEq, Eq)]
pub enum ByteClass {
    OctalDigit,
    HexadecimalDigit,
    /// A decimal digit or `_`.
    Run,
    /// A hexadecimal digit or `_`.
    HexadecimalRun,
}

impl ByteClass {
    /// Whether a byte is of this class.
    pub fn contains(self, byte: u8) -> bool
        ensures { result ≡ contains self byte }
    {
        match self {
            ByteClass::OctalDigit => digit_value(byte) < 8,
            ByteClass::HexadecimalDigit => digit_value(byte) < 16,
            ByteClass::Run => byte.is_ascii_digit() || byte == b'_',
            ByteClass::HexadecimalRun => digit_value(byte) < 16 || byte == b'_',
        }
    }

    /// What stands behind the bytes of this class at the front.
    pub fn behind(self, bytes: &[u8]) -> &[u8]
        ensures behind { result.now ≡ behind (contains self) bytes.now }
        ensures within { length result.now ≤ length bytes.now }
    {
        let mut rest = bytes;
        while let [first, after @ ..] = rest {
            if !self.contains(*first) {
                break;
            }
            rest = after;
        }
        rest
    }

    /// The bytes of this class at the front.
    pub fn front(self, bytes: &[u8]) -> &[u8]
        ensures front { result.now ≡ front (contains self) bytes.now }
        ensures within { length result.now ≤ length bytes.now }
    {
        let rest = self.behind(bytes);
        &bytes[..bytes.len() - rest.len()]
    }
}

/// Whether a byte may begin a name: a letter, `_`, or a byte from 80 to FF.
pub fn is_letter(byte: u8) -> bool
    ensures { result ≡ is_letter byte }
{
    byte.is_ascii_alphabetic() || byte == b'_' || byte >= 0x80
}

/// The value of a digit of any base up to 16, and 16 for any other byte.
pub fn digit_value(byte: u8) -> u8
    ensures value { result ≡ digit_value byte }
    ensures small { result ≤ 16 }
{
    match byte {
        b'0'..=b'9' => byte - b'0',
        b'a'..=b'f' => byte - b'a' + 10,
        b'A'..=b'F' => byte - b'A' + 10,
        _ => 16,
    }
}

/// Whether the bytes begin with this word, which is in lower case, in any ASCII case.
pub fn begins_word(word: &[u8], bytes: &[u8]) -> bool
    ensures { result ≡ begins_word word.now bytes.now }
{
    let [first, word @ ..] = word else {
        return true;
    };
    let [byte, bytes @ ..] = bytes else {
        return false;
    };
    *first == byte.to_ascii_lowercase() && begins_word(word, bytes)
}

/// The first so many bytes, or all where there are fewer.
pub fn at_most(bytes: &[u8], count: usize) -> &[u8]
    ensures { result.now ≡ take count bytes.now }
{
    if count < bytes.len() {
        &bytes[..count]
    } else {
        bytes
    }
}

/// All values from this one on are told as it: it is past the last code point.
pub const LARGE_VALUE: u32 = 0x11_0000;

/// The value of the digits of a base, or `LARGE_VALUE` where it is greater.
pub fn value_of(base: u32, digits: &[u8]) -> u32
    requires { base ≤ 16 }
    ensures { result ≡ min (value_of base digits.now) LARGE_VALUE }
{
    let mut value = 0;
    for digit in digits {
        value = (base * value + u32::from(digit_value(*digit))).min(LARGE_VALUE);
    }
    value
}
