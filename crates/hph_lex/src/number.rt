//! Whole numbers in code (PHP manual, Integers).
ghost use Rattle.std.specs.Prelude.{◌≡◌};
ghost use Rattle.hph_ast.specs.Lexical.{start_of};
ghost use Rattle.hph_ast.specs.declared.lexical.Start.TheVariants as s;
ghost use Rattle.hph_lex.specs.Answers.{ComesInCode};

use crate::found::{Answer, Turn, token};
use hph_ast::{Construct, Kind, LexKind, Mode};
use hph_scan::{Number, scan_number};

/// A whole number below 2^63; a float or a longer number is refused.
pub fn number(mode: Mode, bytes: &[u8]) -> Answer
    requires { start_of bytes.now ≡ s.Number }
    ensures { ComesInCode mode bytes.now result }
{
    match scan_number(bytes) {
        Number::Whole { value, length } => {
            token(Kind::Int(value), length, Turn::Goes(Mode::Code))
        }
        Number::Float => Answer::Refused(Construct::FloatLiteral),
        Number::Bad => Answer::Bad(LexKind::BadNumber),
    }
}
