//! What comes at a place of a file (PHP manual, Basic syntax).
ghost use Rattle.std.specs.Prelude.{◌≡◌, ◌<◌, true, length, IfOk};
ghost use Rattle.hph_ast.specs.Strings.{begins_interpolation};
ghost use Rattle.hph_lex.specs.Answers.{ComesAt, ComesInCode};

use crate::code::{block_comment, cast_token, close_tag, line_comment, mark_token};
use crate::found::{Answer, skipped};
use crate::inline::inline;
use crate::interpolation::interpolation;
use crate::name::{name, variable};
use crate::number::number;
use crate::start::start;
use crate::string::{double_quoted, later_piece, single_quoted};
use hph_ast::{Mode, Start};
use std::alloc::{AllocError, Global};

/// What comes at a place that is read in this mode. An interpolation is read only where one begins.
pub fn place(alloc: Global, mode: Mode, bytes: &[u8]) -> Result<Answer, AllocError>
    requires some { 0 < length bytes.now }
    requires ready { mode ≡ Mode.Interpolation → begins_interpolation bytes.now ≡ true }
    ensures { IfOk result (ComesAt mode bytes.now) }
{
    match mode {
        Mode::Inline => inline(alloc, bytes),
        Mode::Code => in_code(alloc, Mode::Code, bytes),
        Mode::Member => in_code(alloc, Mode::Member, bytes),
        Mode::Interpolation => interpolation(alloc, bytes),
        Mode::Piece => later_piece(alloc, bytes),
    }
}

/// What comes in code.
fn in_code(alloc: Global, mode: Mode, bytes: &[u8]) -> Result<Answer, AllocError>
    ensures { IfOk result (ComesInCode mode bytes.now) }
{
    match start(bytes) {
        Start::Whitespace => Ok(skipped(1, mode)),
        Start::CloseTag => Ok(close_tag(mode, bytes)),
        Start::LineComment => Ok(line_comment(mode, bytes)),
        Start::BlockComment => Ok(block_comment(mode, bytes)),
        Start::Name => name(alloc, mode, bytes),
        Start::Variable => variable(alloc, mode, bytes),
        Start::Number => Ok(number(mode, bytes)),
        Start::SingleQuote => single_quoted(alloc, mode, bytes),
        Start::DoubleQuote => double_quoted(alloc, mode, bytes),
        Start::Cast => Ok(cast_token(mode, bytes)),
        Start::Other => Ok(mark_token(mode, bytes)),
    }
}
