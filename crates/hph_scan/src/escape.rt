//! Escapes of strings in double quotes (PHP manual, Strings, Double quoted).
ghost use Rattle.std.specs.Prelude.{◌≡◌, ◌≤◌, ◌+◌, length, IfSome};
ghost use Rattle.std.specs.Option.{option_map};
ghost use Rattle.hph_ast.specs.Strings.{escape_of, octal};
ghost use Rattle.hph_scan.specs.Escapes.{IsMeaning, escape_told, simple_escape, behind_x, behind_u};

use crate::byte::{ByteClass, at_most, value_of};
use crate::meaning::Meaning;

/// An escape, and how many bytes it takes behind its backslash.
#[derive(Clone, Copy, Debug, PartialEq, Eq)]
pub struct Escape {
    pub meaning: Meaning,
    pub length: usize,
}

/// The escape whose backslash stands before the bytes. None where it is wrong.
pub fn next_escape(bytes: &[u8]) -> Option<Escape>
    ensures escape { option_map escape_told result ≡ escape_of bytes.now }
    ensures meaning { IfSome result (λ found. IsMeaning found.meaning) }
    ensures within { IfSome result (λ found. found.length ≤ length bytes.now) }
{
    let [first, rest @ ..] = bytes else {
        return Some(BACKSLASH);
    };
    match *first {
        b'0'..=b'7' => Some(octal(bytes)),
        b'x' => Some(hexadecimal(rest)),
        b'u' => code_point(rest),
        byte => Some(simple_escape(byte)),
    }
}

/// A backslash that begins no escape.
const BACKSLASH: Escape = Escape {
    meaning: Meaning::Byte(b'\\'),
    length: 0,
};

/// The escape of one byte.
fn simple_escape(byte: u8) -> Escape
    ensures told { escape_told result ≡ simple_escape byte }
    ensures meaning { IsMeaning result.meaning }
    ensures within { result.length ≤ 1 }
{
    let meaning = match byte {
        b'n' => Meaning::Byte(b'\n'),
        b't' => Meaning::Byte(b'\t'),
        b'r' => Meaning::Byte(b'\r'),
        b'v' => Meaning::Byte(0x0B),
        b'e' => Meaning::Byte(0x1B),
        b'f' => Meaning::Byte(0x0C),
        b'\\' | b'$' | b'"' => Meaning::Byte(byte),
        b'{' => Meaning::BackslashBrace,
        _ => return BACKSLASH,
    };
    Escape { meaning, length: 1 }
}

/// One to three octal digits: the low 8 bits of their value.
fn octal(bytes: &[u8]) -> Escape
    ensures told { escape_told result ≡ octal bytes.now }
    ensures meaning { IsMeaning result.meaning }
    ensures within { result.length ≤ length bytes.now }
{
    let digits = ByteClass::OctalDigit.front(at_most(bytes, 3));
    let value = value_of(8, digits);
    Escape {
        meaning: Meaning::Byte((value % 256) as u8),
        length: digits.len(),
    }
}

/// What stands behind `x`: one or two hexadecimal digits, or no escape.
fn hexadecimal(bytes: &[u8]) -> Escape
    ensures told { escape_told result ≡ behind_x bytes.now }
    ensures meaning { IsMeaning result.meaning }
    ensures within { result.length ≤ length bytes.now + 1 }
{
    let digits = ByteClass::HexadecimalDigit.front(at_most(bytes, 2));
    if digits.is_empty() {
        return BACKSLASH;
    }
    Escape {
        meaning: Meaning::Byte(value_of(16, digits) as u8),
        length: 1 + digits.len(),
    }
}

/// What stands behind `u`: a code point in braces, which may be wrong, or no escape.
fn code_point(bytes: &[u8]) -> Option<Escape>
    ensures told { option_map escape_told result ≡ behind_u bytes.now }
    ensures meaning { IfSome result (λ found. IsMeaning found.meaning) }
    ensures within { IfSome result (λ found. found.length ≤ length bytes.now + 1) }
{
    let [b'{', bytes @ ..] = bytes else {
        return Some(BACKSLASH);
    };
    let digits = ByteClass::HexadecimalDigit.front(bytes);
    let code = value_of(16, digits);
    match ByteClass::HexadecimalDigit.behind(bytes) {
        [b'}', ..] if !digits.is_empty() && code <= 0x10_FFFF => Some(Escape {
            meaning: Meaning::CodePoint(code),
            length: 3 + digits.len(),
        }),
        _ => None,
    }
}
