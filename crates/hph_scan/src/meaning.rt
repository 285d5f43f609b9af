//! What a string's text is made of, byte by byte and escape by escape.
ghost use Rattle.std.specs.Prelude.{◌≡◌, ◌<◌, ◌+◌, ◌%◌, ◌++◌, encode_utf8, OnOk};
ghost use Rattle.hph_scan.specs.Escapes.{IsMeaning, meaning_text};

use sqlite_items::Items;
use std::alloc::AllocError;

/// What a byte or an escape of a string stands for.
#[derive(Clone, Copy, Debug, PartialEq, Eq)]
pub enum Meaning {
    Byte(u8),
    /// The bytes of a code point up to 10FFFF in the scheme of UTF-8, also of a surrogate.
    CodePoint(u32),
    /// A backslash and `{`.
    BackslashBrace,
}

impl Meaning {
    /// Appends the bytes that the meaning stands for.
    pub fn push_to(self, text: &mut Items<u8>) -> Result<(), AllocError>
        requires { IsMeaning self }
        ensures { OnOk result (text.new ≡ text.old ++ meaning_text self) }
    {
        match self {
            Meaning::Byte(byte) => text.push(byte),
            Meaning::CodePoint(code) => push_code_point(text, code),
            Meaning::BackslashBrace => {
                text.push(b'\\')?;
                text.push(b'{')
            }
        }
    }
}

/// Appends the one to four bytes of a code point (PHP manual, Strings: UTF-8).
fn push_code_point(text: &mut Items<u8>, code: u32) -> Result<(), AllocError>
    requires { code < 0x110000 }
    ensures { OnOk result (text.new ≡ text.old ++ encode_utf8 code) }
{
    if code < 0x80 {
        return text.push(code as u8);
    }
    if code < 0x800 {
        text.push(0xC0 + (code / 0x40) as u8)?;
        return text.push(continuation(code));
    }
    if code < 0x1_0000 {
        text.push(0xE0 + (code / 0x1000) as u8)?;
        text.push(continuation(code / 0x40))?;
        return text.push(continuation(code));
    }
    text.push(0xF0 + (code / 0x4_0000) as u8)?;
    text.push(continuation(code / 0x1000))?;
    text.push(continuation(code / 0x40))?;
    text.push(continuation(code))
}

/// The byte that continues a character with its six lowest bits.
fn continuation(bits: u32) -> u8
    ensures { result ≡ 128 + bits % 64 }
{
    0x80 + (bits % 0x40) as u8
}
