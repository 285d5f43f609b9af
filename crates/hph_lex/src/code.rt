//! What comes in code and has no text of its own (PHP manual, Basic syntax, Operators and Type Juggling).
ghost use Rattle.std.specs.Prelude.{◌≡◌};
ghost use Rattle.hph_ast.specs.Bytes.{newline_length};
ghost use Rattle.hph_ast.specs.Lexical.{start_of};
ghost use Rattle.hph_ast.specs.declared.lexical.Start.TheVariants as s;
ghost use Rattle.hph_lex.specs.Answers.{ComesInCode};

use crate::bytes::after;
use crate::cast::cast;
use crate::ending::Ending;
use crate::found::{Answer, Turn, skipped, token};
use crate::mark::mark;
use crate::spelled::from_table;
use hph_ast::{Kind, LexKind, Mark, Mode};

/// `?>`, which is a semicolon and takes one newline directly behind it.
pub fn close_tag(mode: Mode, bytes: &[u8]) -> Answer
    requires { start_of bytes.now ≡ s.CloseTag }
    ensures { ComesInCode mode bytes.now result }
{
    let length = 2 + newline_length(after(bytes, 2));
    token(
        Kind::Mark(Mark::Semicolon),
        length,
        Turn::Goes(Mode::Inline),
    )
}

/// A comment up to a newline or `?>`.
pub fn line_comment(mode: Mode, bytes: &[u8]) -> Answer
    requires { start_of bytes.now ≡ s.LineComment }
    ensures { ComesInCode mode bytes.now result }
{
    skipped(Ending::LineComment.length(bytes), mode)
}

/// A comment up to `*/`.
pub fn block_comment(mode: Mode, bytes: &[u8]) -> Answer
    requires { start_of bytes.now ≡ s.BlockComment }
    ensures { ComesInCode mode bytes.now result }
{
    match Ending::BlockComment.first(after(bytes, 2)) {
        Some(inside) => skipped(4 + inside, mode),
        None => Answer::Bad(LexKind::UnclosedComment),
    }
}

/// A cast, or one that is refused.
pub fn cast_token(mode: Mode, bytes: &[u8]) -> Answer
    requires { start_of bytes.now ≡ s.Cast }
    ensures { ComesInCode mode bytes.now result }
{
    match cast(bytes) {
        Some((what, length)) => from_table(what, length),
        None => Answer::Bad(LexKind::BadByte),
    }
}

/// A mark, an operator, or what begins like one and is refused.
pub fn mark_token(mode: Mode, bytes: &[u8]) -> Answer
    requires { start_of bytes.now ≡ s.Other }
    ensures { ComesInCode mode bytes.now result }
{
    match mark(bytes) {
        Some((what, length)) => from_table(what, length),
        None => Answer::Bad(LexKind::BadByte),
    }
}

/// How many bytes a newline takes that begins here, or 0.
fn newline_length(bytes: &[u8]) -> usize
    ensures { result ≡ newline_length bytes.now }
{
    match bytes {
        [b'\r', b'\n', ..] => 2,
        [b'\r' | b'\n', ..] => 1,
        _ => 0,
    }
}
