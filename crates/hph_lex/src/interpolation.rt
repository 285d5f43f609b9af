//! Interpolations in strings in double quotes (PHP manual, Strings, String interpolation).
ghost use Rattle.std.specs.Prelude.{◌≡◌, ◌≤◌, ◌&&◌, ℕ, true, drop, length, codes, IfOk, IfSome};
ghost use Rattle.hph_ast.specs.Bytes.{begins, begins_with, is_letter};
ghost use Rattle.hph_ast.specs.Strings.{begins_interpolation};
ghost use Rattle.hph_lex.specs.Answers.{answer, interpolated, ComesAt, ComesBehind};

use crate::bytes::{ByteClass, after, begins};
use crate::found::{Answer, Behind, Found, Next, Turn, token};
use crate::key::key;
use hph_ast::{Construct, Kind, Mark, Mode};
use sqlite_items::Items;
use std::alloc::{AllocError, Global};

/// An interpolation: `{` before `$` and a name, or a variable with what follows it.
pub fn interpolation(alloc: Global, bytes: &[u8]) -> Result<Answer, AllocError>
    requires { begins_interpolation bytes.now ≡ true }
    ensures { IfOk result (ComesAt Mode.Interpolation bytes.now) }
{
    if begins(b"{$", bytes) {
        return Ok(open_brace(bytes));
    }
    if begins(b"${", bytes) {
        return Ok(Answer::Refused(Construct::Interpolation));
    }
    simple(alloc, bytes)
}

/// `{`, where a name stands behind the `$`.
fn open_brace(bytes: &[u8]) -> Answer
    requires { begins (codes "{$") bytes.now ≡ true }
    ensures { ComesAt Mode.Interpolation bytes.now result }
{
    if ByteClass::Letter.begins(after(bytes, 2)) {
        token(
            Kind::Mark(Mark::OpenInterpolation),
            1,
            Turn::Enters(Mode::Piece),
        )
    } else {
        Answer::Refused(Construct::Interpolation)
    }
}

/// A variable and what follows it.
fn simple(alloc: Global, bytes: &[u8]) -> Result<Answer, AllocError>
    requires { (begins (codes "$") bytes.now && begins_with is_letter (drop 1 bytes.now)) ≡ true }
    ensures { IfOk result (ComesAt Mode.Interpolation bytes.now) }
{
    let (name, rest) = ByteClass::Name.split(after(bytes, 1));
    match what_follows(alloc, rest)? {
        None => Ok(Answer::Refused(Construct::Interpolation)),
        Some((behind, more)) => {
            let length = 1 + name.len() + more;
            let name = Items::from_slice(alloc, name)?;
            Ok(interpolated(name, behind, length))
        }
    }
}

/// The answer of so many bytes for a variable and what follows it.
fn interpolated(name: Items<u8>, behind: Behind, length: usize) -> Answer
    ensures { (at : ℕ) → answer at result ≡ interpolated at name behind length }
{
    Answer::Next(Next {
        found: Found::Interpolated { name, behind },
        length,
        turn: Turn::Goes(Mode::Piece),
    })
}

/// What follows a variable in a string, and its length; None where nothing that begins so may.
fn what_follows(alloc: Global, bytes: &[u8]) -> Result<Option<(Behind, usize)>, AllocError>
    ensures is { IfOk result (ComesBehind bytes.now) }
    ensures within { IfOk result (λ found. IfSome found (λ f. f.1 ≤ length bytes.now)) }
{
    if begins(b"[", bytes) {
        return element(alloc, bytes);
    }
    if begins_property(b"->", bytes) {
        return property(alloc, bytes);
    }
    if begins_property(b"?->", bytes) {
        return Ok(None);
    }
    Ok(Some((Behind::Alone, 0)))
}

/// `[`, a key and `]`.
fn element(alloc: Global, bytes: &[u8]) -> Result<Option<(Behind, usize)>, AllocError>
    requires { begins (codes "[") bytes.now ≡ true }
    ensures is { IfOk result (ComesBehind bytes.now) }
    ensures within { IfOk result (λ found. IfSome found (λ f. f.1 ≤ length bytes.now)) }
{
    let inside = after(bytes, 1);
    let Some(key) = key(alloc, inside)? else {
        return Ok(None);
    };
    if !begins(b"]", after(inside, key.length)) {
        return Ok(None);
    }
    let length = 2 + key.length;
    Ok(Some((Behind::Key(key), length)))
}

/// `->` and a name.
fn property(alloc: Global, bytes: &[u8]) -> Result<Option<(Behind, usize)>, AllocError>
    requires { (begins (codes "->") bytes.now && begins_with is_letter (drop 2 bytes.now)) ≡ true }
    ensures is { IfOk result (ComesBehind bytes.now) }
    ensures within { IfOk result (λ found. IfSome found (λ f. f.1 ≤ length bytes.now)) }
{
    let (name, _) = ByteClass::Name.split(after(bytes, 2));
    let length = 2 + name.len();
    let name = Items::from_slice(alloc, name)?;
    Ok(Some((Behind::Property(name), length)))
}

/// Whether an arrow and then a name begin here.
fn begins_property(arrow: &[u8], bytes: &[u8]) -> bool
    ensures { result ≡ (begins arrow.now bytes.now && begins_with is_letter (drop (length arrow.now) bytes.now)) }
{
    begins(arrow, bytes) && ByteClass::Letter.begins(after(bytes, arrow.len()))
}
