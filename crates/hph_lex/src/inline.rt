//! What comes outside code (PHP manual, Basic syntax).
ghost use Rattle.std.specs.Prelude.{◌≡◌, ◌<◌, true, false, length, IfOk};
ghost use Rattle.hph_ast.specs.Lexical.{begins_code, ends_inline, opening_length};
ghost use Rattle.hph_lex.specs.Answers.{ComesAt};

use crate::bytes::{ByteClass, after};
use crate::ending::{Ending, begins_code, begins_echo};
use crate::found::{Answer, Turn, skipped, token};
use hph_ast::{Keyword, Kind, Mode};
use sqlite_items::Items;
use std::alloc::{AllocError, Global};

/// A tag that opens code, or the text before the next one.
pub fn inline(alloc: Global, bytes: &[u8]) -> Result<Answer, AllocError>
    requires { 0 < length bytes.now }
    ensures { IfOk result (ComesAt Mode.Inline bytes.now) }
{
    if begins_code(bytes) {
        return Ok(skipped(opening_length(bytes), Mode::Code));
    }
    if begins_echo(bytes) {
        return Ok(token(Kind::Keyword(Keyword::Echo), 3, Turn::Goes(Mode::Code)));
    }
    inline_text(alloc, bytes)
}

/// The text before the next tag that opens code.
fn inline_text(alloc: Global, bytes: &[u8]) -> Result<Answer, AllocError>
    requires { ends_inline bytes.now ≡ false }
    ensures { IfOk result (ComesAt Mode.Inline bytes.now) }
{
    let length = Ending::InlineText.length(bytes);
    let text = Items::from_slice(alloc, bytes.split_at(length).0)?;
    Ok(token(Kind::InlineText(text), length, Turn::Goes(Mode::Inline)))
}

/// The length of `<?php` and of one whitespace byte behind it, or CR LF.
fn opening_length(bytes: &[u8]) -> usize
    requires { begins_code bytes.now ≡ true }
    ensures { result ≡ opening_length bytes.now }
{
    5 + match after(bytes, 5) {
        [b'\r', b'\n', ..] => 2,
        [first, ..] if ByteClass::Whitespace.contains(*first) => 1,
        _ => 0,
    }
}
