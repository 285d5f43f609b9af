//! Names, keywords and variables (PHP manual, Variables and List of Keywords).
ghost use Rattle.std.specs.Prelude.{◌≡◌, IfOk};
ghost use Rattle.hph_ast.specs.Lexical.{start_of};
ghost use Rattle.hph_ast.specs.Words.{name_kind};
ghost use Rattle.hph_ast.specs.declared.lexical.Start.TheVariants as s;
ghost use Rattle.hph_lex.specs.Answers.{ComesInCode, is_member};

use crate::bytes::{ByteClass, after};
use crate::found::{Answer, Turn, token};
use crate::word::{Word, keyword};
use hph_ast::{Kind, Mode};
use sqlite_items::Items;
use std::alloc::{AllocError, Global};

/// The name or keyword that begins here.
pub fn name(alloc: Global, mode: Mode, bytes: &[u8]) -> Result<Answer, AllocError>
    requires { start_of bytes.now ≡ s.Name }
    ensures { IfOk result (ComesInCode mode bytes.now) }
{
    let (name, _) = ByteClass::Name.split(bytes);
    let kind = name_kind(alloc, is_member(mode), name)?;
    Ok(token(kind, name.len(), Turn::Goes(Mode::Code)))
}

/// The variable that begins here.
pub fn variable(alloc: Global, mode: Mode, bytes: &[u8]) -> Result<Answer, AllocError>
    requires { start_of bytes.now ≡ s.Variable }
    ensures { IfOk result (ComesInCode mode bytes.now) }
{
    let (name, _) = ByteClass::Name.split(after(bytes, 1));
    let kind = Kind::Variable(Items::from_slice(alloc, name)?);
    Ok(token(kind, 1 + name.len(), Turn::Goes(Mode::Code)))
}

/// Whether a place stands behind `->` or `::`.
fn is_member(mode: Mode) -> bool
    ensures { result ≡ is_member mode }
{
    matches!(mode, Mode::Member)
}

/// What a name is where it may be a keyword, or behind `->` and `::`, where it is none.
fn name_kind(alloc: Global, is_member: bool, name: &[u8]) -> Result<Kind, AllocError>
    ensures { IfOk result (λ kind. kind ≡ name_kind is_member name.now) }
{
    let word = if is_member { None } else { keyword(name) };
    Ok(match word {
        Some(Word::Keyword(keyword)) => Kind::Keyword(keyword),
        Some(Word::Operator(operator)) => Kind::Operator(operator),
        None => Kind::Name(Items::from_slice(alloc, name)?),
    })
}
