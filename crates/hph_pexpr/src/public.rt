//! What the crate offers.

ghost use Rattle.std.specs.Prelude.{◌≡◌, ℕ, List, drop, IfOk};
ghost use Rattle.hph_ast.specs.declared.token.Token.{Token};
ghost use Rattle.hph_ast.specs.declared.expr.Expr.{Expr};
ghost use Rattle.hph_fexpr.specs.Public.{SpellsAt, expr_at, ends, ends_kind};
ghost use Rattle.hph_pexpr.specs.Results.{IsAnswer, Answers};

use crate::parser::nested;
use hph_ast::{Expr, Keyword, Kind, Mark, Token};
use hph_cursor::{Cursor, ParseFault};
use hph_fexpr::{Form, expressions_are_read};
use hph_nest::expr_fits;
use std::alloc::Global;

const LIMIT: usize = 512;

fn ends_at(kind: &Kind) -> bool
    ensures { result ≡ ends_kind kind.now }
{
    matches!(
        kind,
        Kind::Mark(
            Mark::Semicolon
                | Mark::Comma
                | Mark::CloseParen
                | Mark::CloseBracket
                | Mark::CloseBrace
                | Mark::Colon
                | Mark::DoubleArrow
        ) | Kind::Keyword(Keyword::As)
    )
}

fn ends(tokens: &[Token]) -> bool
    ensures { result ≡ ends tokens.now }
{
    match tokens {
        [] => true,
        [token, ..] => ends_at(&token.kind),
    }
}

/// The tokens from a place on; none where there is no such place.
fn tokens_from(tokens: &[Token], at: usize) -> &[Token]
    ensures { result.now ≡ drop at tokens.now }
{
    if at > tokens.len() {
        return &[];
    }
    &tokens[at..]
}

#[tactic(auto, unfolding(hph_fexpr::specs::Public::expr_at))]
fn exact(alloc: Global, tokens: &[Token], at: usize) -> Result<(Expr, usize), ParseFault>
    ensures { Answers (expr_at tokens.now at) result }
{
    let mut cursor = Cursor::new(tokens_from(tokens, at), tokens.len());
    let found = nested(alloc, &mut cursor, LIMIT, Form::Level(1))?;
    if !ends(cursor.rest()) || !expr_fits(found.get(), LIMIT) {
        return Err(cursor.refuse());
    }
    Ok((
        found.into_inner(),
        tokens.len().saturating_sub(cursor.left()),
    ))
}

/// The expression that the tokens from a place on spell, and the place where it ends: before `;`, `,`, `)`, `]`, `}`,
/// `:`, `=>` or `as`, or at the end. `Syntax` where they spell none, or one that is nested deeper than 512.
pub fn expr(alloc: Global, tokens: &[Token], at: usize) -> Result<(Expr, usize), ParseFault>
    // What is read is spelled so.
    ensures found { IfOk result (λ r. SpellsAt tokens.now at r.0 r.1) }
    // What is spelled so is read, unless memory runs out.
    ensures only { (x : Expr) (k : ℕ) → SpellsAt tokens.now at x k → IsAnswer (x, k) result }
{
    expressions_are_read();
    exact(alloc, tokens, at)
}
