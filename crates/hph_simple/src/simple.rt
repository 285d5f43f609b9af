//! Statements in which there are no statements (PHP manual, Control Structures).

ghost use Rattle.hph_ast.specs.Places as places;
ghost use Rattle.hph_ast.specs.declared.stmt.Statement.TheVariants as s;
ghost use Rattle.hph_cursor.specs.Reads.{Reads, ReadsAs};
ghost use Rattle.hph_cursor.specs.Steps.{and_then, pure, take_token};
ghost use Rattle.hph_fstmt.specs.Parser as spec;
ghost use Rattle.hph_fstmt.specs.Statements as statements;

use hph_ast::{Kind, Mark, Statement, Token};
use hph_cursor::{Cursor, ParseFault, on, place, span};
use hph_parts::lists::variables;
use hph_parts::words::sees_second_variable;
use hph_parts::{Expressions, Parts};
use sqlite_items::Items;
use std::alloc::Global;

/// At `;`.
pub fn empty(cursor: &mut Cursor<'_>) -> Result<Statement, ParseFault>
    ensures { Reads (and_then (take_token cursor.old) (λ t. pure (s.Empty (places.on t)))) result cursor.new }
{
    let token = cursor.take()?;
    Ok(Statement::Empty { at: on(token) })
}

/// At inline text.
pub fn inline_text(
    alloc: Global,
    cursor: &mut Cursor<'_>,
    bytes: &Items<u8>,
) -> Result<Statement, ParseFault>
    ensures { Reads (and_then (take_token cursor.old) (λ t. pure (s.InlineText (places.on t) bytes.now))) result cursor.new }
{
    let bytes = Items::from_slice(alloc, bytes.as_slice())?;
    let token = cursor.take()?;
    Ok(Statement::InlineText {
        at: on(token),
        bytes,
    })
}

/// How many levels a `break` or `continue` leaves, if it says so.
#[tactic(auto, unfolding(hph_fstmt::specs::Statements::maybe_levels))]
fn maybe_levels(cursor: &mut Cursor<'_>) -> Result<Option<u64>, ParseFault>
    ensures { Reads (statements.maybe_levels cursor.old) result cursor.new }
{
    let [token, ..] = cursor.rest() else {
        return Err(cursor.refuse());
    };
    let Kind::Int(levels) = &token.kind else {
        return Ok(None);
    };
    cursor.take()?;
    Ok(Some(*levels))
}

/// The same, and the `;`.
#[tactic(auto, unfolding(hph_fstmt::specs::Statements::levels))]
fn levels<'a>(cursor: &mut Cursor<'a>) -> Result<(Option<u64>, &'a Token), ParseFault>
    ensures { ReadsAs (λ r. (r.0, r.1.now)) (statements.levels cursor.old) result cursor.new }
{
    let found = maybe_levels(cursor)?;
    let close = cursor.expect(Mark::Semicolon)?;
    Ok((found, close))
}

/// At `break`.
#[tactic(auto, unfolding(hph_fstmt::specs::Statements::break_))]
pub fn break_statement(cursor: &mut Cursor<'_>) -> Result<Statement, ParseFault>
    ensures { Reads (and_then (take_token cursor.old) statements.break_) result cursor.new }
{
    let token = cursor.take()?;
    let (levels, close) = levels(cursor)?;
    Ok(Statement::Break {
        at: span(on(token), on(close)),
        levels,
    })
}

/// At `continue`.
#[tactic(auto, unfolding(hph_fstmt::specs::Statements::continue_))]
pub fn continue_statement(cursor: &mut Cursor<'_>) -> Result<Statement, ParseFault>
    ensures { Reads (and_then (take_token cursor.old) statements.continue_) result cursor.new }
{
    let token = cursor.take()?;
    let (levels, close) = levels(cursor)?;
    Ok(Statement::Continue {
        at: span(on(token), on(close)),
        levels,
    })
}

/// At `global`.
#[tactic(auto, unfolding(hph_fstmt::specs::Statements::global))]
pub fn global_statement(alloc: Global, cursor: &mut Cursor<'_>) -> Result<Statement, ParseFault>
    ensures { Reads (and_then (take_token cursor.old) statements.global) result cursor.new }
{
    let token = cursor.take()?;
    let (names, close) = variables(alloc, cursor)?;
    Ok(Statement::Global {
        at: span(on(token), on(close)),
        names,
    })
}

/// An expression and `;`.
#[tactic(auto, unfolding(hph_fstmt::specs::Statements::expression))]
pub fn expression<E: Expressions>(
    parts: &Parts<E>,
    cursor: &mut Cursor<'_>,
) -> Result<Statement, ParseFault>
    ensures { Reads (statements.expression spec.expressions cursor.old) result cursor.new }
{
    let value = parts.expr(cursor)?;
    let close = cursor.expect(Mark::Semicolon)?;
    Ok(Statement::Expression {
        at: span(place(value.get()), on(close)),
        value,
    })
}

/// At `return`.
#[tactic(auto, unfolding(hph_fstmt::specs::Statements::returned))]
pub fn return_statement<E: Expressions>(
    parts: &Parts<E>,
    cursor: &mut Cursor<'_>,
) -> Result<Statement, ParseFault>
    ensures { Reads (and_then (take_token cursor.old) (statements.returned spec.expressions)) result cursor.new }
{
    let token = cursor.take()?;
    if cursor.sees(Mark::Semicolon) {
        let close = cursor.take()?;
        return Ok(Statement::Return {
            at: span(on(token), on(close)),
            value: None,
        });
    }
    let value = parts.expr(cursor)?;
    let close = cursor.expect(Mark::Semicolon)?;
    Ok(Statement::Return {
        at: span(on(token), on(close)),
        value: Some(value),
    })
}

/// At `echo`.
#[tactic(auto, unfolding(hph_fstmt::specs::Statements::echo))]
pub fn echo<E: Expressions>(
    parts: &Parts<E>,
    cursor: &mut Cursor<'_>,
) -> Result<Statement, ParseFault>
    ensures { Reads (and_then (take_token cursor.old) (statements.echo spec.expressions)) result cursor.new }
{
    let token = cursor.take()?;
    let (values, close) = parts.exprs(cursor, Mark::Semicolon)?;
    Ok(Statement::Echo {
        at: span(on(token), on(close)),
        values,
    })
}

/// At `unset`.
#[tactic(auto, unfolding(hph_fstmt::specs::Statements::unset))]
pub fn unset<E: Expressions>(
    parts: &Parts<E>,
    cursor: &mut Cursor<'_>,
) -> Result<Statement, ParseFault>
    ensures { Reads (and_then (take_token cursor.old) (statements.unset spec.expressions)) result cursor.new }
{
    let token = cursor.take()?;
    cursor.expect(Mark::OpenParen)?;
    let (paths, _) = parts.expressions.written_paths(parts.alloc, cursor)?;
    let close = cursor.expect(Mark::Semicolon)?;
    Ok(Statement::Unset {
        at: span(on(token), on(close)),
        paths,
    })
}

/// Behind `static`.
#[tactic(auto, unfolding(hph_fstmt::specs::Statements::static_))]
fn static_statement<E: Expressions>(
    parts: &Parts<E>,
    cursor: &mut Cursor<'_>,
    token: &Token,
) -> Result<Statement, ParseFault>
    ensures { Reads (statements.static_ spec.expressions token.now cursor.old) result cursor.new }
{
    let (variables, close) = parts.static_variables(cursor)?;
    Ok(Statement::Static {
        at: span(on(token), on(close)),
        variables,
    })
}

/// At `const`.
#[tactic(auto, unfolding(hph_fstmt::specs::Statements::constants))]
pub fn const_statement<E: Expressions>(
    parts: &Parts<E>,
    cursor: &mut Cursor<'_>,
) -> Result<Statement, ParseFault>
    ensures { Reads (and_then (take_token cursor.old) (statements.constants spec.expressions)) result cursor.new }
{
    let token = cursor.take()?;
    let (items, close) = parts.constant_items(cursor)?;
    Ok(Statement::Const {
        at: span(on(token), on(close)),
        items,
    })
}

/// At `static`, which declares variables, or is a class with whose member an expression begins.
#[tactic(auto, unfolding(hph_fstmt::specs::Statements::static_or_expression))]
pub fn static_or_expression<E: Expressions>(
    parts: &Parts<E>,
    cursor: &mut Cursor<'_>,
) -> Result<Statement, ParseFault>
    ensures { Reads (statements.static_or_expression spec.expressions cursor.old) result cursor.new }
{
    if !sees_second_variable(cursor) {
        return expression(parts, cursor);
    }
    let token = cursor.take()?;
    static_statement(parts, cursor, token)
}
