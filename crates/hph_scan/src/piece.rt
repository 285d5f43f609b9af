//! Pieces of strings in double quotes (PHP manual, Strings).
ghost use Rattle.std.specs.Prelude.{◌≡◌, ◌≤◌, ◌∷◌, false, length, IfOk, OnOk};
ghost use Rattle.hph_ast.specs.Strings.{Piece};
ghost use Rattle.hph_scan.specs.Escapes.{AreMeanings};
ghost use Rattle.hph_scan.specs.Fronts.{Spells};
ghost use Rattle.hph_scan.specs.Pieces.{IsPiece, ends_piece, joined, meaning_told, piece_told, text_told};

use crate::byte::is_letter;
use crate::escape::{Escape, next_escape};
use crate::meaning::Meaning;
use crate::single::Quoted;
use sqlite_items::Items;
use std::alloc::{AllocError, Global};

/// What is spelled where a piece of a string in double quotes begins.
#[derive(Debug, Drop)]
pub enum QuotedPiece {
    /// Its text, which ends before the closing quote or an interpolation.
    Text(Quoted),
    /// The piece is closed, and one of its escapes is wrong.
    BadEscape,
    /// No quote and no interpolation ends it.
    Unclosed,
}

/// The piece of a string in double quotes that the bytes begin with; its length counts neither the closing quote nor
/// the interpolation that ends it (PHP manual, Strings, Double quoted).
pub fn scan_quoted_piece(alloc: Global, bytes: &[u8]) -> Result<QuotedPiece, AllocError>
    ensures { IfOk result (IsPiece bytes.now) }
{
    let mut read = PieceText {
        text: Items::new(alloc),
        has_bad_escape: false,
    };
    let mut rest = bytes;
    while !ends_piece(rest) {
        let [first, after @ ..] = rest else {
            return Ok(QuotedPiece::Unclosed);
        };
        let next = next_meaning(*first, after);
        read.push(next.meaning)?;
        rest = next.rest;
    }
    Ok(read.up_to(bytes.len() - rest.len()))
}

/// The text of a piece, as far as it is read.
#[derive(Debug, Drop)]
struct PieceText {
    text: Items<u8>,
    has_bad_escape: bool,
}

impl PieceText {
    /// Appends what a meaning stands for; None is a wrong escape.
    fn push(&mut self, meaning: Option<Meaning>) -> Result<(), AllocError>
        requires { AreMeanings meaning }
        ensures { OnOk result (text_told self.new ≡ joined (text_told self.old) (meaning_told meaning)) }
    {
        match meaning {
            Some(meaning) => meaning.push_to(&mut self.text),
            None => {
                self.has_bad_escape = true;
                Ok(())
            }
        }
    }

    /// The piece that so many bytes spell.
    fn up_to(self, length: usize) -> QuotedPiece
        ensures { result ≡ piece_told self length }
    {
        let PieceText {
            text,
            has_bad_escape,
        } = self;
        if has_bad_escape {
            QuotedPiece::BadEscape
        } else {
            QuotedPiece::Text(Quoted { text, length })
        }
    }
}

/// Whether the closing quote or an interpolation stands at the front.
fn ends_piece(bytes: &[u8]) -> bool
    ensures { result ≡ ends_piece bytes.now }
{
    match bytes {
        [b'"', ..] | [b'{', b'$', ..] | [b'$', b'{', ..] => true,
        [b'$', byte, ..] => is_letter(*byte),
        _ => false,
    }
}

/// What the front of a piece stands for, and what stands behind it.
#[derive(Clone, Copy, Debug)]
struct Next<'a> {
    /// None where an escape is wrong.
    meaning: Option<Meaning>,
    rest: &'a [u8],
}

/// What a byte stands for, or an escape where it is a backslash.
fn next_meaning(first: u8, after: &[u8]) -> Next<'_>
    requires { ends_piece (first ∷ after.now) ≡ false }
    ensures spells { Spells Piece (first ∷ after.now) result.rest.now (joined (meaning_told result.meaning)) }
    ensures meaning { AreMeanings result.meaning }
    ensures within { length result.rest.now ≤ length after.now }
{
    if first != b'\\' {
        return Next {
            meaning: Some(Meaning::Byte(first)),
            rest: after,
        };
    }
    match next_escape(after) {
        Some(Escape { meaning, length }) => Next {
            meaning: Some(meaning),
            rest: &after[length..],
        },
        None => Next {
            meaning: None,
            rest: after,
        },
    }
}
