//! The labels of `switch` (PHP manual, switch).

ghost use Rattle.std.specs.Prelude.{count_by, nat_le, ◌≡◌};
ghost use Rattle.hph_ast.specs.Statements as grammar;
ghost use Rattle.hph_ast.specs.declared.stmt.Statement.TheVariants as s;
ghost use Rattle.hph_cursor.specs.Reads.{Reads, ReadsAs};
ghost use Rattle.hph_cursor.specs.Steps.{pure_if};
ghost use Rattle.hph_fstmt.specs.Parser as spec;
ghost use Rattle.hph_fstmt.specs.Statements as statements;

use hph_ast::{At, Case, Expr, Keyword, Kind, Statement, Token};
use hph_cursor::{Cursor, ParseFault};
use hph_parts::words::expect_label_end;
use hph_parts::{Expressions, Parts};
use sqlite_items::{Boxed, Items};

fn is_default(case: &Case) -> bool
    ensures { result ≡ grammar.is_default case.now }
{
    case.test.is_none()
}

/// How many labels are `default`.
fn defaults(cases: &[Case]) -> usize
    ensures { result ≡ count_by grammar.is_default cases.now }
{
    let mut count = 0;
    for case in cases {
        if is_default(case) {
            count += 1;
        }
    }
    count
}

/// A `switch` with these cases, unless more than one label is `default`.
pub fn switch_of(
    cursor: &Cursor<'_>,
    at: At,
    subject: Boxed<Expr>,
    cases: Items<Case>,
) -> Result<Statement, ParseFault>
    ensures { Reads (pure_if (nat_le (count_by grammar.is_default cases) 1) (s.Switch at subject cases) cursor.now) result cursor.now }
{
    if defaults(cases.as_slice()) > 1 {
        return Err(cursor.refuse());
    }
    Ok(Statement::Switch { at, subject, cases })
}

/// Behind `case` or `default`.
fn label_test<E: Expressions>(
    parts: &Parts<E>,
    cursor: &mut Cursor<'_>,
    kind: &Kind,
) -> Result<Option<Boxed<Expr>>, ParseFault>
    ensures { Reads (statements.label_by spec.expressions kind.now cursor.old) result cursor.new }
{
    match kind {
        Kind::Keyword(Keyword::Case) => {
            let test = parts.expr(cursor)?;
            Ok(Some(test))
        }
        Kind::Keyword(Keyword::Default) => Ok(None),
        _ => Err(cursor.refuse()),
    }
}

/// A label, and the mark behind it.
#[tactic(auto, unfolding(hph_fstmt::specs::Statements::label))]
pub fn label<'a, E: Expressions>(
    parts: &Parts<E>,
    cursor: &mut Cursor<'a>,
) -> Result<(Option<Boxed<Expr>>, &'a Token), ParseFault>
    ensures { ReadsAs (λ r. (r.0, r.1.now)) (statements.label spec.expressions cursor.old) result cursor.new }
{
    let token = cursor.take()?;
    let test = label_test(parts, cursor, &token.kind)?;
    let close = expect_label_end(cursor)?;
    Ok((test, close))
}
