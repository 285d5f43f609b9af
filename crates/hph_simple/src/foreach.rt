//! The variables of `foreach` (PHP manual, foreach).

ghost use Rattle.hph_cursor.specs.Reads.{Reads};
ghost use Rattle.hph_fstmt.specs.Parser as spec;
ghost use Rattle.hph_fstmt.specs.Statements as statements;

use hph_ast::{Binary, ForeachTarget, Identifier, Kind, Mark, Token};
use hph_cursor::{Cursor, ParseFault};
use hph_parts::words::{identifier, sees_second};
use hph_parts::{Expressions, Parts};
use std::alloc::Global;

/// The key's variable, where `=>` stands behind it.
#[tactic(auto, unfolding(hph_fstmt::specs::Statements::foreach_key))]
pub fn foreach_key(alloc: Global, cursor: &mut Cursor<'_>) -> Result<Option<Identifier>, ParseFault>
    ensures { Reads (statements.foreach_key cursor.old) result cursor.new }
{
    if !sees_second(cursor, Mark::DoubleArrow) {
        return Ok(None);
    }
    let token = cursor.take()?;
    let Kind::Variable(spelled) = &token.kind else {
        return Err(cursor.refuse());
    };
    let name = identifier(alloc, token, spelled)?;
    cursor.take()?;
    Ok(Some(name))
}

/// Behind `[`.
#[tactic(auto, unfolding(hph_fstmt::specs::Statements::destructured))]
fn destructured<E: Expressions>(
    parts: &Parts<E>,
    cursor: &mut Cursor<'_>,
    opening: &Token,
) -> Result<ForeachTarget, ParseFault>
    ensures { Reads (statements.destructured spec.expressions opening.now cursor.old) result cursor.new }
{
    let found = parts.expressions.targets(parts.alloc, cursor)?;
    Ok(ForeachTarget::Destructure {
        bracket: opening.start,
        items: found.items,
    })
}

/// Behind `&`.
#[tactic(auto, unfolding(hph_fstmt::specs::Statements::referenced))]
fn referenced<E: Expressions>(
    parts: &Parts<E>,
    cursor: &mut Cursor<'_>,
    ampersand: &Token,
) -> Result<ForeachTarget, ParseFault>
    ensures { Reads (statements.referenced spec.expressions ampersand.now cursor.old) result cursor.new }
{
    let source = parts.expressions.source(parts.alloc, cursor)?;
    Ok(ForeachTarget::Reference {
        source,
        ampersand: ampersand.start,
    })
}

/// What a turn sets to the element.
#[tactic(auto, unfolding(hph_fstmt::specs::Statements::foreach_target))]
pub fn foreach_target<E: Expressions>(
    parts: &Parts<E>,
    cursor: &mut Cursor<'_>,
) -> Result<ForeachTarget, ParseFault>
    ensures { Reads (statements.foreach_target spec.expressions cursor.old) result cursor.new }
{
    let token = cursor.take()?;
    match &token.kind {
        Kind::Variable(spelled) => {
            let name = identifier(parts.alloc, token, spelled)?;
            Ok(ForeachTarget::Variable { name })
        }
        Kind::Operator(Binary::BitAnd) => referenced(parts, cursor, token),
        Kind::Mark(Mark::OpenBracket) => destructured(parts, cursor, token),
        _ => Err(cursor.refuse()),
    }
}
