//! What the rows of the tables of marks, operators and casts spell.
ghost use Rattle.std.specs.Prelude.{◌≡◌, ℕ};
ghost use Rattle.hph_ast.specs.declared.token.Kind.TheVariants as k;
ghost use Rattle.hph_ast.specs.Lexical.{from_table, turn_of};
ghost use Rattle.hph_lex.specs.Answers.{answer, turn_told};
ghost use Rattle.hph_lex.specs.Tables.{spelled};

use crate::found::{Answer, Turn, token};
use hph_ast::{Assignment, Binary, Cast, Construct, Kind, Mark, Mode};

/// A token without a text of its own, or a construct that is refused.
#[derive(Clone, Copy, PartialEq, Eq)]
pub enum Spelled {
    Operator(Binary),
    Assign(Assignment),
    Cast(Cast),
    Mark(Mark),
    Refused(Construct),
}

/// The token of a row, or why there is none.
pub fn from_table(what: Spelled, length: usize) -> Answer
    ensures { (at : ℕ) → answer at result ≡ from_table at length (spelled what) }
{
    match what {
        Spelled::Operator(operator) => token(
            Kind::Operator(operator),
            length,
            Turn::Goes(Mode::Code),
        ),
        Spelled::Assign(assignment) => token(
            Kind::Assign(assignment),
            length,
            Turn::Goes(Mode::Code),
        ),
        Spelled::Cast(cast) => token(Kind::Cast(cast), length, Turn::Goes(Mode::Code)),
        Spelled::Mark(mark) => token(Kind::Mark(mark), length, turn_of(mark)),
        Spelled::Refused(which) => Answer::Refused(which),
    }
}

/// What a mark leads to.
fn turn_of(mark: Mark) -> Turn
    ensures { turn_told result ≡ turn_of (k.Mark mark) }
{
    match mark {
        Mark::OpenBrace => Turn::Enters(Mode::Code),
        Mark::CloseBrace => Turn::Leaves,
        Mark::Arrow | Mark::DoubleColon => Turn::Goes(Mode::Member),
        _ => Turn::Goes(Mode::Code),
    }
}
