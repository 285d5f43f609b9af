//! Declared types (PHP manual, Type declarations).

ghost use Rattle.std.specs.Prelude.{IfOk, [], length, ◌≡◌};
ghost use Rattle.hph_cursor.specs.Next as next;
ghost use Rattle.hph_cursor.specs.Reads.{Reads, ReadsAs};
ghost use Rattle.hph_fstmt.specs.Declarations as spec;

use hph_ast::{At, DeclaredType, Keyword, Kind, Mark, Token, TypeName};
use hph_cursor::{Cursor, ParseFault, on, span};
use hph_parts::words::{here, identifier, sees_bar};
use sqlite_items::Items;
use std::alloc::{AllocError, Global};

fn type_name_of(alloc: Global, token: &Token) -> Result<Option<TypeName>, AllocError>
    ensures { IfOk result (λ r. r ≡ spec.type_name_by token.now token.now.kind) }
{
    let start = token.start;
    match &token.kind {
        Kind::Name(spelled) => {
            let name = identifier(alloc, token, spelled)?;
            Ok(Some(TypeName::Named { name }))
        }
        Kind::Keyword(Keyword::Array) => Ok(Some(TypeName::Array { start })),
        Kind::Keyword(Keyword::SelfClass) => Ok(Some(TypeName::SelfClass { start })),
        Kind::Keyword(Keyword::Parent) => Ok(Some(TypeName::Parent { start })),
        _ => Ok(None),
    }
}

/// A name in a type, and its token.
#[tactic(auto, unfolding(hph_fstmt::specs::Declarations::type_name))]
fn type_name<'a>(
    alloc: Global,
    cursor: &mut Cursor<'a>,
) -> Result<(TypeName, &'a Token), ParseFault>
    ensures { ReadsAs (λ r. (r.0, r.1.now)) (spec.type_name cursor.old) result cursor.new }
{
    let token = cursor.take()?;
    match type_name_of(alloc, token)? {
        Some(name) => Ok((name, token)),
        None => Err(cursor.refuse()),
    }
}

/// Names with `|` between, and the last one's token.
fn type_names<'a>(
    alloc: Global,
    cursor: &mut Cursor<'a>,
) -> Result<(Items<TypeName>, &'a Token), ParseFault>
    ensures { ReadsAs (λ r. (r.0, r.1.now)) (spec.type_names_from (length cursor.old) [] cursor.old) result cursor.new }
{
    let mut found = Items::new(alloc);
    for _turn in 0..cursor.left() {
        let (name, last) = type_name(alloc, cursor)?;
        found.push(name)?;
        if !sees_bar(cursor) {
            return Ok((found, last));
        }
        cursor.take()?;
    }
    Err(cursor.refuse())
}

/// The names of a type that begins at a place.
#[tactic(auto, unfolding(hph_fstmt::specs::Declarations::named_type))]
fn named_type(
    alloc: Global,
    cursor: &mut Cursor<'_>,
    at: At,
    nullable: bool,
) -> Result<DeclaredType, ParseFault>
    ensures { Reads (spec.named_type at nullable cursor.old) result cursor.new }
{
    let (names, last) = type_names(alloc, cursor)?;
    Ok(DeclaredType {
        at: span(at, on(last)),
        nullable,
        names,
    })
}

#[tactic(auto, unfolding(hph_fstmt::specs::Declarations::declared_type))]
fn declared_type(alloc: Global, cursor: &mut Cursor<'_>) -> Result<DeclaredType, ParseFault>
    ensures { Reads (spec.declared_type cursor.old) result cursor.new }
{
    let at = here(cursor)?;
    if !cursor.sees(Mark::Question) {
        return named_type(alloc, cursor, at, false);
    }
    cursor.take()?;
    named_type(alloc, cursor, at, true)
}

#[tactic(auto, unfolding(hph_fstmt::specs::Declarations::some_type))]
fn some_type(alloc: Global, cursor: &mut Cursor<'_>) -> Result<Option<DeclaredType>, ParseFault>
    ensures { Reads (spec.some_type cursor.old) result cursor.new }
{
    let found = declared_type(alloc, cursor)?;
    Ok(Some(found))
}

fn begins_type(kind: &Kind) -> bool
    ensures { result ≡ spec.begins_type kind.now }
{
    matches!(
        kind,
        Kind::Mark(Mark::Question)
            | Kind::Name(_)
            | Kind::Keyword(Keyword::Array | Keyword::SelfClass | Keyword::Parent)
    )
}

fn sees_type(cursor: &Cursor<'_>) -> bool
    ensures { result ≡ next.is_next spec.begins_type cursor.now }
{
    match cursor.rest() {
        [] => false,
        [token, ..] => begins_type(&token.kind),
    }
}

/// The type of a parameter or of properties, if there is one.
#[tactic(auto, unfolding(hph_fstmt::specs::Declarations::maybe_type))]
pub fn maybe_type(
    alloc: Global,
    cursor: &mut Cursor<'_>,
) -> Result<Option<DeclaredType>, ParseFault>
    ensures { Reads (spec.maybe_type cursor.old) result cursor.new }
{
    if !sees_type(cursor) {
        return Ok(None);
    }
    some_type(alloc, cursor)
}

/// The type of a function's result, if there is one.
#[tactic(auto, unfolding(hph_fstmt::specs::Declarations::result_type))]
pub fn result_type(
    alloc: Global,
    cursor: &mut Cursor<'_>,
) -> Result<Option<DeclaredType>, ParseFault>
    ensures { Reads (spec.result_type cursor.old) result cursor.new }
{
    if !cursor.sees(Mark::Colon) {
        return Ok(None);
    }
    cursor.take()?;
    some_type(alloc, cursor)
}

/// Whether a `&` is next, which is taken.
#[tactic(auto, unfolding(hph_fstmt::specs::Declarations::maybe_reference))]
pub fn maybe_reference(cursor: &mut Cursor<'_>) -> Result<bool, ParseFault>
    ensures { Reads (spec.maybe_reference cursor.old) result cursor.new }
{
    if !cursor.sees_ampersand() {
        return Ok(false);
    }
    cursor.take()?;
    Ok(true)
}
