//! Where lists of statements, of branches and of members end.

ghost use Rattle.std.specs.Prelude.{◌≡◌};
ghost use Rattle.hph_ast.specs.declared.token.Mark.TheVariants.{CloseBrace};
ghost use Rattle.hph_cursor.specs.Steps as steps;
ghost use Rattle.hph_fstmt.specs.Repeats as repeats;
ghost use Rattle.hph_fstmt.specs.Statements as statements;

use crate::words::is_keyword;
use hph_ast::{Keyword, Kind, Mark};
use hph_cursor::Cursor;

/// Whether a list of statements ends before a token.
fn ends_kind(kind: &Kind) -> bool
    ensures { result ≡ statements.ends_statements kind.now }
{
    matches!(
        kind,
        Kind::Mark(Mark::CloseBrace) | Kind::Keyword(Keyword::Case | Keyword::Default)
    )
}

/// Whether a list of statements ends here.
pub fn ends_statements(cursor: &Cursor<'_>) -> bool
    ensures { result ≡ repeats.at_end statements.ends_statements cursor.now }
{
    match cursor.rest() {
        [] => true,
        [token, ..] => ends_kind(&token.kind),
    }
}

/// Whether a `}` or the end is next.
pub fn ends_braces(cursor: &Cursor<'_>) -> bool
    ensures { result ≡ repeats.at_end (steps.is_mark CloseBrace) cursor.now }
{
    match cursor.rest() {
        [] => true,
        [token, ..] => match &token.kind {
            Kind::Mark(found) => *found == Mark::CloseBrace,
            _ => false,
        },
    }
}

/// Whether no `elseif` is next.
pub fn ends_branches(cursor: &Cursor<'_>) -> bool
    ensures { result ≡ repeats.at_end statements.ends_branches cursor.now }
{
    match cursor.rest() {
        [] => true,
        [token, ..] => !is_keyword(Keyword::ElseIf, &token.kind),
    }
}
