//! Where what has no end of its own kind stops: text outside code, and comments.
ghost use Rattle.std.specs.Prelude.{◌≡◌, true, [], MatchOption};
ghost use Rattle.hph_ast.specs.Bytes.{First, Never};
ghost use Rattle.hph_ast.specs.Lexical.{begins_code, begins_echo};
ghost use Rattle.hph_lex.specs.Classes.{ends};

use crate::bytes::{ByteClass, after, begins, begins_word};

/// What is read up to the first place at which it ends.
#[derive(Clone, Copy, PartialEq, Eq)]
pub enum Ending {
    InlineText,
    LineComment,
    BlockComment,
}

impl Ending {
    /// The first place at which it ends.
    pub fn first(self, bytes: &[u8]) -> Option<usize>
        ensures { MatchOption result (Never (ends self) bytes.now) (λ at. First (ends self) bytes.now at) }
    {
        for at in 0..bytes.len() {
            if self.ends(&bytes[at..]) {
                return Some(at);
            }
        }
        if self.ends(&[]) {
            Some(bytes.len())
        } else {
            None
        }
    }

    /// The first place at which it ends, where the end of the file ends it too.
    pub fn length(self, bytes: &[u8]) -> usize
        requires { ends self [] ≡ true }
        ensures { First (ends self) bytes.now result }
    {
        self.first(bytes).unwrap_or(bytes.len())
    }

    /// Whether it ends before these bytes.
    pub fn ends(self, bytes: &[u8]) -> bool
        ensures { result ≡ ends self bytes.now }
    {
        match self {
            Ending::InlineText => bytes.is_empty() || begins_code(bytes) || begins_echo(bytes),
            Ending::LineComment => match bytes {
                [] => true,
                [first, ..] => *first == b'\n' || *first == b'\r' || begins(b"?>", bytes),
            },
            Ending::BlockComment => begins(b"*/", bytes),
        }
    }
}

/// Whether code opens: `<?php` in any ASCII case before whitespace or the end.
pub fn begins_code(bytes: &[u8]) -> bool
    ensures { result ≡ begins_code bytes.now }
{
    begins_word(b"<?php", bytes)
        && (ByteClass::Whitespace.begins(after(bytes, 5)) || bytes.len() == 5)
}

/// Whether code opens as an `echo`: `<?=`.
pub fn begins_echo(bytes: &[u8]) -> bool
    ensures { result ≡ begins_echo bytes.now }
{
    begins(b"<?=", bytes)
}
