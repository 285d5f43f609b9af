//! Keywords, names and variables as tokens.

ghost use Rattle.std.specs.Prelude.{IfOk, ◌≡◌};
ghost use Rattle.hph_ast.specs.Places as places;
ghost use Rattle.hph_cursor.specs.Next as next;
ghost use Rattle.hph_cursor.specs.Reads.{Reads, ReadsAs};
ghost use Rattle.hph_cursor.specs.Steps as steps;
ghost use Rattle.hph_fstmt.specs.Declarations as declarations;
ghost use Rattle.hph_fstmt.specs.Statements as statements;
ghost use Rattle.hph_fstmt.specs.Words as spec;

use hph_ast::{At, Binary, Identifier, Keyword, Kind, Mark, Token};
use hph_cursor::{Cursor, ParseFault, on};
use sqlite_items::Items;
use std::alloc::{AllocError, Global};

/// Whether a token is this keyword.
pub fn is_keyword(word: Keyword, kind: &Kind) -> bool
    ensures { result ≡ spec.is_keyword word kind.now }
{
    match kind {
        Kind::Keyword(found) => *found == word,
        _ => false,
    }
}

/// Whether the next token is this keyword.
pub fn sees_keyword(cursor: &Cursor<'_>, word: Keyword) -> bool
    ensures { result ≡ spec.sees_keyword word cursor.now }
{
    match cursor.rest() {
        [] => false,
        [token, ..] => is_keyword(word, &token.kind),
    }
}

/// Takes a token that is this keyword.
pub fn expect_keyword<'a>(cursor: &mut Cursor<'a>, word: Keyword) -> Result<&'a Token, ParseFault>
    ensures { ReadsAs (λ t. t.now) (spec.expect_kind (spec.is_keyword word) cursor.old) result cursor.new }
{
    match cursor.rest() {
        [token, ..] if is_keyword(word, &token.kind) => cursor.take(),
        _ => Err(cursor.refuse()),
    }
}

fn is_set(kind: &Kind) -> bool
    ensures { result ≡ next.is_set_kind kind.now }
{
    match kind {
        Kind::Assign(operator) => hph_cursor::is_set(*operator),
        _ => false,
    }
}

/// Takes a `=`.
pub fn expect_set<'a>(cursor: &mut Cursor<'a>) -> Result<&'a Token, ParseFault>
    ensures { ReadsAs (λ t. t.now) (spec.expect_kind next.is_set_kind cursor.old) result cursor.new }
{
    match cursor.rest() {
        [token, ..] if is_set(&token.kind) => cursor.take(),
        _ => Err(cursor.refuse()),
    }
}

fn ends_label(kind: &Kind) -> bool
    ensures { result ≡ statements.ends_label kind.now }
{
    matches!(kind, Kind::Mark(Mark::Colon | Mark::Semicolon))
}

/// Takes the mark behind a label of `switch`.
pub fn expect_label_end<'a>(cursor: &mut Cursor<'a>) -> Result<&'a Token, ParseFault>
    ensures { ReadsAs (λ t. t.now) (spec.expect_kind statements.ends_label cursor.old) result cursor.new }
{
    match cursor.rest() {
        [token, ..] if ends_label(&token.kind) => cursor.take(),
        _ => Err(cursor.refuse()),
    }
}

/// Whether the token behind the next one is this mark.
pub fn sees_second(cursor: &Cursor<'_>, mark: Mark) -> bool
    ensures { result ≡ statements.is_second (steps.is_mark mark) cursor.now }
{
    match cursor.rest() {
        [_, second, ..] => match &second.kind {
            Kind::Mark(found) => *found == mark,
            _ => false,
        },
        _ => false,
    }
}

/// Whether the token behind the next one is a variable.
pub fn sees_second_variable(cursor: &Cursor<'_>) -> bool
    ensures { result ≡ statements.is_second next.is_variable cursor.now }
{
    match cursor.rest() {
        [_, second, ..] => matches!(&second.kind, Kind::Variable(_)),
        _ => false,
    }
}

fn is_bar(kind: &Kind) -> bool
    ensures { result ≡ declarations.is_bar kind.now }
{
    matches!(kind, Kind::Operator(Binary::BitOr))
}

/// Whether the `|` between the names of a type is next.
pub fn sees_bar(cursor: &Cursor<'_>) -> bool
    ensures { result ≡ next.is_next declarations.is_bar cursor.now }
{
    match cursor.rest() {
        [] => false,
        [token, ..] => is_bar(&token.kind),
    }
}

/// The place of the next token.
pub fn here(cursor: &Cursor<'_>) -> Result<At, ParseFault>
    ensures { Reads (spec.here cursor.now) result cursor.now }
{
    match cursor.rest() {
        [] => Err(cursor.refuse()),
        [token, ..] => Ok(on(token)),
    }
}

/// The place of a name or a variable.
pub fn identifier_place(name: &Identifier) -> At
    ensures { result ≡ spec.identifier_place name.now }
{
    At {
        start: name.start,
        end: name.end,
        site: 0,
    }
}

/// A name or a variable with its token's place.
pub fn identifier(
    alloc: Global,
    token: &Token,
    spelled: &Items<u8>,
) -> Result<Identifier, AllocError>
    ensures { IfOk result (λ r. r ≡ places.identifier token.now spelled.now) }
{
    Ok(Identifier {
        start: token.start,
        end: token.end,
        spelled: Items::from_slice(alloc, spelled.as_slice())?,
    })
}

/// Takes a variable.
#[tactic(auto, unfolding(hph_fstmt::specs::Words::variable))]
pub fn variable(alloc: Global, cursor: &mut Cursor<'_>) -> Result<Identifier, ParseFault>
    ensures { Reads (spec.variable cursor.old) result cursor.new }
{
    let token = cursor.take()?;
    match &token.kind {
        Kind::Variable(spelled) => Ok(identifier(alloc, token, spelled)?),
        _ => Err(cursor.refuse()),
    }
}

/// Takes a name.
#[tactic(auto, unfolding(hph_fstmt::specs::Words::name))]
pub fn name(alloc: Global, cursor: &mut Cursor<'_>) -> Result<Identifier, ParseFault>
    ensures { Reads (spec.name cursor.old) result cursor.new }
{
    let token = cursor.take()?;
    match &token.kind {
        Kind::Name(spelled) => Ok(identifier(alloc, token, spelled)?),
        _ => Err(cursor.refuse()),
    }
}
