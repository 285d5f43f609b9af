//! Classes of bytes, and what bytes begin with.
ghost use Rattle.std.specs.Prelude.{◌≡◌, ◌≤◌, ◌+◌, length, drop};
ghost use Rattle.hph_ast.specs.Bytes.{begins, begins_with, begins_word, is_letter, is_word, front, behind, lower};
ghost use Rattle.hph_lex.specs.Classes.{contains};

/// A class of bytes (PHP manual, Basic syntax and Variables).
#[derive(Clone, Copy, PartialEq, Eq)]
pub enum ByteClass {
    /// Space, tab, LF and CR.
    Whitespace,
    /// Space and tab.
    Blank,
    Digit,
    /// A letter, `_`, or a byte from 80 to FF.
    Letter,
    /// A letter or a digit.
    Name,
}

impl ByteClass {
    /// Whether a byte is of this class.
    pub fn contains(self, byte: u8) -> bool
        ensures { result ≡ contains self byte }
    {
        match self {
            ByteClass::Whitespace => matches!(byte, b' ' | b'\t' | b'\n' | b'\r'),
            ByteClass::Blank => byte == b' ' || byte == b'\t',
            ByteClass::Digit => byte.is_ascii_digit(),
            ByteClass::Letter => is_letter(byte),
            ByteClass::Name => is_letter(byte) || byte.is_ascii_digit(),
        }
    }

    /// Whether the first byte is of this class.
    pub fn begins(self, bytes: &[u8]) -> bool
        ensures { result ≡ begins_with (contains self) bytes.now }
    {
        match bytes {
            [] => false,
            [first, ..] => self.contains(*first),
        }
    }

    /// What stands behind the bytes of this class at the front.
    pub fn skip(self, bytes: &[u8]) -> &[u8]
        ensures behind { result.now ≡ behind (contains self) bytes.now }
        ensures within { length result.now ≤ length bytes.now }
    {
        let mut rest = bytes;
        while let [first, after @ ..] = rest {
            if !self.contains(*first) {
                break;
            }
            rest = after;
        }
        rest
    }

    /// The bytes of this class at the front, and what stands behind them.
    pub fn split(self, bytes: &[u8]) -> (&[u8], &[u8])
        ensures front { result.0.now ≡ front (contains self) bytes.now }
        ensures behind { result.1.now ≡ behind (contains self) bytes.now }
        ensures counted { length result.0.now + length result.1.now ≡ length bytes.now }
        ensures dropped { result.1.now ≡ drop (length result.0.now) bytes.now }
    {
        let rest = self.skip(bytes);
        (&bytes[..bytes.len() - rest.len()], rest)
    }
}

/// The bytes behind the first so many.
pub fn after(bytes: &[u8], count: usize) -> &[u8]
    requires { count ≤ length bytes.now }
    ensures { result.now ≡ drop count bytes.now }
{
    bytes.split_at(count).1
}

/// Whether the bytes begin with these.
pub fn begins(front: &[u8], bytes: &[u8]) -> bool
    ensures { result ≡ begins front.now bytes.now }
{
    bytes.starts_with(front)
}

/// Whether the bytes begin with this word, which is in lower case, in any ASCII case.
pub fn begins_word(word: &[u8], bytes: &[u8]) -> bool
    ensures { result ≡ begins_word word.now bytes.now }
{
    let mut rest = bytes;
    for letter in word {
        let [first, behind @ ..] = rest else {
            return false;
        };
        if *letter != lower(*first) {
            return false;
        }
        rest = behind;
    }
    true
}

/// Whether the bytes are this word, which is in lower case, in any ASCII case.
#[tactic(auto, using(crate::proofs::ByteLaws::is_word_by_length))]
pub fn is_word(word: &[u8], bytes: &[u8]) -> bool
    ensures { result ≡ is_word word.now bytes.now }
{
    word.len() == bytes.len() && begins_word(word, bytes)
}

fn is_letter(byte: u8) -> bool
    ensures { result ≡ is_letter byte }
{
    byte.is_ascii_alphabetic() || byte == b'_' || byte >= 0x80
}

/// A byte, a letter of ASCII in lower case.
pub fn lower(byte: u8) -> u8
    ensures { result ≡ lower byte }
{
    if byte.is_ascii_uppercase() {
        byte + 32
    } else {
        byte
    }
}
