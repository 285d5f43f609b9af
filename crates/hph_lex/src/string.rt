//! Strings in code, and their pieces (PHP manual, Strings).
ghost use Rattle.std.specs.Prelude.{◌≡◌, ◌≤◌, ◌+◌, ℕ, [], ◌∷◌, length, drop, IfOk};
ghost use Rattle.hph_ast.specs.Lexical.{piece, start_of};
ghost use Rattle.hph_ast.specs.declared.lexical.Start.TheVariants as s;
ghost use Rattle.hph_ast.specs.declared.token.Kind.TheVariants as k;
ghost use Rattle.hph_lex.specs.Answers.{answer, ComesAt, ComesInCode};

use crate::bytes::{after, begins};
use crate::found::{Answer, Turn, token};
use hph_ast::{Kind, LexKind, Mode};
use hph_scan::{Quoted, QuotedPiece, scan_quoted_piece, scan_single_quoted};
use std::alloc::{AllocError, Global};

/// A string in single quotes.
pub fn single_quoted(alloc: Global, mode: Mode, bytes: &[u8]) -> Result<Answer, AllocError>
    requires { start_of bytes.now ≡ s.SingleQuote }
    ensures { IfOk result (ComesInCode mode bytes.now) }
{
    match scan_single_quoted(alloc, after(bytes, 1))? {
        Some(Quoted { text, length }) => {
            Ok(token(Kind::Text(text), 1 + length, Turn::Goes(Mode::Code)))
        }
        None => Ok(Answer::Bad(LexKind::UnclosedString)),
    }
}

/// A string in double quotes up to its first interpolation or its closing quote.
pub fn double_quoted(alloc: Global, mode: Mode, bytes: &[u8]) -> Result<Answer, AllocError>
    requires { start_of bytes.now ≡ s.DoubleQuote }
    ensures { IfOk result (ComesInCode mode bytes.now) }
{
    match scan_quoted_piece(alloc, after(bytes, 1))? {
        QuotedPiece::Text(quoted) => Ok(first_piece(bytes, quoted)),
        QuotedPiece::BadEscape => Ok(Answer::Bad(LexKind::BadEscape)),
        QuotedPiece::Unclosed => Ok(Answer::Bad(LexKind::UnclosedString)),
    }
}

/// The first piece of a string, whose text begins behind the opening quote.
fn first_piece(bytes: &[u8], quoted: Quoted) -> Answer
    requires { quoted.length + 1 ≤ length bytes.now }
    ensures { (at : ℕ) → answer at result ≡ piece k.Text k.TextHead at quoted.text bytes.now (drop (1 + quoted.length) bytes.now) }
{
    let Quoted { text, length } = quoted;
    if begins(b"\"", after(bytes, 1 + length)) {
        token(Kind::Text(text), 2 + length, Turn::Goes(Mode::Code))
    } else {
        token(
            Kind::TextHead(text),
            1 + length,
            Turn::Goes(Mode::Interpolation),
        )
    }
}

/// A piece of a string behind an interpolation.
pub fn later_piece(alloc: Global, bytes: &[u8]) -> Result<Answer, AllocError>
    ensures { IfOk result (ComesAt Mode.Piece bytes.now) }
{
    match scan_quoted_piece(alloc, bytes)? {
        QuotedPiece::Text(quoted) => Ok(next_piece(bytes, quoted)),
        QuotedPiece::BadEscape => Ok(Answer::Bad(LexKind::BadEscape)),
        QuotedPiece::Unclosed => Ok(Answer::Bad(LexKind::UnclosedString)),
    }
}

/// A further piece of a string, with its text at the front.
fn next_piece(bytes: &[u8], quoted: Quoted) -> Answer
    requires { quoted.length ≤ length bytes.now }
    ensures { (at : ℕ) → answer at result ≡ piece k.TextTail k.TextMiddle at quoted.text bytes.now (drop quoted.length bytes.now) }
{
    let Quoted { text, length } = quoted;
    if begins(b"\"", after(bytes, length)) {
        token(Kind::TextTail(text), 1 + length, Turn::Goes(Mode::Code))
    } else {
        token(
            Kind::TextMiddle(text),
            length,
            Turn::Goes(Mode::Interpolation),
        )
    }
}
