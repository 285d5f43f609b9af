//! Constructs that a token tells.
ghost use Rattle.std.specs.Prelude.{◌≡◌, bytes_eq};
ghost use Rattle.std.specs.List.{list_any};
ghost use Rattle.hph_ast.specs.RefusedTokens as refused;
ghost use Rattle.hph_ast.specs.RefusedTokens.{kind_next};

use crate::names::is_word;
use hph_ast::{Binary, Construct, Keyword, Kind, Mark, Token};

/// A function without a name, or one that gives a reference.
fn function_before(after: &[Token]) -> Option<Construct>
    ensures { result ≡ refused.function_before (kind_next after.now) }
{
    match after {
        [
            Token {
                kind: Kind::Mark(Mark::OpenParen),
                ..
            },
            ..
        ] => Some(Construct::Closure),
        [
            Token {
                kind: Kind::Operator(Binary::BitAnd),
                ..
            },
            ..
        ] => Some(Construct::RefReturn),
        _ => None,
    }
}

fn keyword_construct(keyword: Keyword, after: &[Token]) -> Option<Construct>
    ensures { result ≡ refused.keyword_construct keyword (kind_next after.now) }
{
    match keyword {
        Keyword::Eval => Some(Construct::Eval),
        Keyword::Yield => Some(Construct::Generator),
        Keyword::Fn => Some(Construct::Closure),
        Keyword::Function => function_before(after),
        Keyword::Try | Keyword::Catch | Keyword::Finally | Keyword::Throw => {
            Some(Construct::Exceptions)
        }
        Keyword::Interface
        | Keyword::Trait
        | Keyword::Implements
        | Keyword::Abstract
        | Keyword::Final
        | Keyword::ReadOnly => Some(Construct::TypeKind),
        Keyword::Namespace | Keyword::Use => Some(Construct::Namespace),
        Keyword::Declare => Some(Construct::Declare),
        Keyword::Goto => Some(Construct::Goto),
        Keyword::Match => Some(Construct::Match),
        Keyword::EndIf
        | Keyword::EndWhile
        | Keyword::EndFor
        | Keyword::EndForeach
        | Keyword::EndSwitch
        | Keyword::EndDeclare => Some(Construct::AltSyntax),
        Keyword::List => Some(Construct::Destructure),
        Keyword::Clone => Some(Construct::Clone),
        Keyword::HaltCompiler => Some(Construct::Halt),
        Keyword::MagicLine
        | Keyword::MagicFile
        | Keyword::MagicFunction
        | Keyword::MagicClass
        | Keyword::MagicMethod
        | Keyword::MagicNamespace
        | Keyword::MagicTrait => Some(Construct::MagicConstant),
        _ => None,
    }
}

fn begins_with_name(after: &[Token]) -> bool
    ensures { result ≡ refused.is_name (kind_next after.now) }
{
    matches!(
        after,
        [
            Token {
                kind: Kind::Name(_),
                ..
            },
            ..
        ]
    )
}

fn is_superglobal(name: &[u8]) -> bool
    ensures { result ≡ list_any (bytes_eq name.now) refused.superglobals }
{
    name == b"GLOBALS".as_slice()
        || name == b"_GET".as_slice()
        || name == b"_POST".as_slice()
        || name == b"_SERVER".as_slice()
        || name == b"_COOKIE".as_slice()
        || name == b"_FILES".as_slice()
        || name == b"_ENV".as_slice()
        || name == b"_REQUEST".as_slice()
        || name == b"_SESSION".as_slice()
}

/// What a token tells that stands behind a `->` or `::`, or behind neither, and before others.
fn kind_construct(is_member: bool, kind: &Kind, after: &[Token]) -> Option<Construct>
    ensures { result ≡ refused.kind_construct is_member kind.now (kind_next after.now) }
{
    match kind {
        Kind::Keyword(keyword) => keyword_construct(*keyword, after),
        Kind::Name(name) => {
            if !is_member && is_word(b"enum", name.as_slice()) && begins_with_name(after) {
                Some(Construct::TypeKind)
            } else {
                None
            }
        }
        Kind::Variable(name) => {
            if is_superglobal(name.as_slice()) {
                Some(Construct::Superglobal)
            } else {
                None
            }
        }
        _ => None,
    }
}

fn is_member_mark(kind: &Kind) -> bool
    ensures { result ≡ refused.is_member_mark kind.now }
{
    matches!(kind, Kind::Mark(Mark::Arrow | Mark::DoubleColon))
}

/// The first construct that a token tells, and the token's offset (this project's own list); none where no token tells one.
pub fn token_construct(tokens: &[Token]) -> Option<(Construct, u32)>
    ensures { result ≡ refused.token_construct tokens.now }
{
    let mut is_member = false;
    for index in 0..tokens.len() {
        let token = &tokens[index];
        let after = &tokens[index + 1..];
        if let Some(construct) = kind_construct(is_member, &token.kind, after) {
            return Some((construct, token.start));
        }
        is_member = is_member_mark(&token.kind);
    }
    None
}
