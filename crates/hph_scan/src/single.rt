//! Strings in single quotes (PHP manual, Strings).
ghost use Rattle.std.specs.Prelude.{◌≡◌, ◌≤◌, false, ◌∷◌, length, IfOk, ◌==◌, ◌||◌};
ghost use Rattle.hph_ast.specs.Strings.{Single};
ghost use Rattle.hph_scan.specs.Fronts.{Spells};
ghost use Rattle.hph_scan.specs.Strings.{IsSingleQuoted};

use sqlite_items::Items;
use std::alloc::{AllocError, Global};

/// What a string, or a piece of one, holds, and how many bytes spell it.
#[derive(Debug, Drop)]
pub struct Quoted {
    pub text: Items<u8>,
    pub length: usize,
}

/// The string whose opening quote stands before the bytes; its length counts the closing quote. None where it isn't
/// closed (PHP manual, Strings, Single quoted).
pub fn scan_single_quoted(alloc: Global, bytes: &[u8]) -> Result<Option<Quoted>, AllocError>
    ensures { IfOk result (IsSingleQuoted bytes.now) }
{
    let mut text = Items::new(alloc);
    let mut rest = bytes;
    while let [first, after @ ..] = rest {
        if *first == b'\'' {
            return Ok(Some(Quoted {
                text,
                length: bytes.len() - after.len(),
            }));
        }
        let (byte, behind) = next_byte(*first, after);
        text.push(byte)?;
        rest = behind;
    }
    Ok(None)
}

/// What a byte of a string stands for, or an escape where it is a backslash, and what stands behind it.
fn next_byte(first: u8, after: &[u8]) -> (u8, &[u8])
    requires { (first == 39) ≡ false }
    ensures spells { Spells Single (first ∷ after.now) result.1.now (λ more. result.0 ∷ more) }
    ensures within { length result.1.now ≤ length after.now }
{
    let [second, rest @ ..] = after else {
        return (first, after);
    };
    if first == b'\\' && is_escaped(*second) {
        (*second, rest)
    } else {
        (first, after)
    }
}

/// Whether a backslash goes with this byte behind it: a single quote or a backslash.
fn is_escaped(byte: u8) -> bool
    ensures { result ≡ (byte == 39 || byte == 92) }
{
    matches!(byte, b'\'' | b'\\')
}
