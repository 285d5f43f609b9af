//! Brackets that are open.

ghost use Rattle.std.specs.Prelude.{◌≡◌, ◌≤◌};
ghost use Rattle.hph_ast.specs.RefusedTokens as brackets;
ghost use Rattle.hph_parse.specs.Public.{deep_from};

use hph_ast::{Kind, Mark, Token};

const BRACKET_LIMIT: usize = 256;

fn opens_bracket(kind: &Kind) -> bool
    ensures { result ≡ brackets.opens_bracket kind.now }
{
    matches!(
        kind,
        Kind::Mark(Mark::OpenParen | Mark::OpenBracket | Mark::OpenBrace | Mark::OpenInterpolation)
    )
}

fn closes_bracket(kind: &Kind) -> bool
    ensures { result ≡ brackets.closes_bracket kind.now }
{
    matches!(
        kind,
        Kind::Mark(Mark::CloseParen | Mark::CloseBracket | Mark::CloseBrace)
    )
}

/// How many brackets are open behind a token, with how many before it.
fn open_behind(count: usize, kind: &Kind) -> usize
    requires { count ≤ 256 }
    ensures { result ≡ brackets.open_behind count kind.now }
{
    if opens_bracket(kind) {
        count + 1
    } else if closes_bracket(kind) {
        count.saturating_sub(1)
    } else {
        count
    }
}

/// The first token at which too many brackets are open.
pub fn first_deep(tokens: &[Token]) -> Option<usize>
    ensures { result ≡ deep_from 0 0 tokens.now }
{
    let mut count = 0;
    for index in 0..tokens.len() {
        count = open_behind(count, &tokens[index].kind);
        if count > BRACKET_LIMIT {
            return Some(index);
        }
    }
    None
}
