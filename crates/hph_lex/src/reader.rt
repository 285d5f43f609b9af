//! A file as far as it is read.
ghost use Rattle.std.specs.Prelude.{◌≡◌, ◌+◌, ◌^◌, ◌<◌, ◌++◌, [], ◌∷◌, length, Ok, Err, if◌then◌else◌, IfOk, OnOk};
ghost use Rattle.hph_ast.specs.Lexical.{token};
ghost use Rattle.hph_ast.specs.Tokens.{in_string, string_is_open, turned};
ghost use Rattle.hph_lex.specs.Answers.{EndBefore, behind_tokens, found_tokens, is_code, turn_told};

use crate::fault::LexFault;
use crate::found::{Behind, Found, Key, Next, Turn};
use hph_ast::{Kind, LexKind, Mark, Mode, Token};
use std::alloc::{AllocError, Global};
use std::collections::LinkedList;

/// A file that is read up to an offset.
#[derive(Drop)]
pub struct Reader {
    pub tokens: Vec<Token>,
    pub at: usize,
    /// What the bytes from there on are read as.
    pub mode: Mode,
    /// What stands behind each brace that is open, the last one first.
    pub outer: LinkedList<Mode>,
}

impl Reader {
    ghost use Rattle.hph_lex.specs.Readings.{Takes, white};

    /// At the beginning of a file.
    pub fn new(alloc: Global) -> Reader
        ensures tokens { result.tokens.items ≡ [] }
        ensures at { result.at ≡ 0 }
        ensures mode { result.mode ≡ Mode.Inline }
        ensures outer { result.outer ≡ [] }
    {
        Reader {
            tokens: Vec::new(alloc),
            at: 0,
            mode: Mode::Inline,
            outer: LinkedList::new(alloc),
        }
    }

    /// Whether code comes at its place.
    pub fn is_in_code(&self) -> bool
        ensures { result ≡ is_code self.now.mode }
    {
        matches!(self.mode, Mode::Code | Mode::Member)
    }

    /// Goes over a byte of whitespace in code.
    pub fn skip_byte(&mut self)
        requires { self.old.at + 1 < 2 ^ 32 }
        ensures { Takes self.old (white self.old.mode) self.new }
    {
        self.at += 1;
    }

    /// Goes over what comes at its place. Where memory runs out, it may have gone a part of the way.
    pub fn take(&mut self, next: Next) -> Result<(), AllocError>
        requires offsets { EndBefore (2 ^ 32) (found_tokens self.old.at next.length next.found) }
        requires within { self.old.at + next.length < 2 ^ 32 }
        ensures { OnOk result (Takes self.old next self.new) }
    {
        let Next {
            found,
            length,
            turn,
        } = next;
        push_found(&mut self.tokens, self.at, length, found)?;
        self.mode = turned(&mut self.outer, turn)?;
        self.at += length;
        Ok(())
    }

    /// The tokens of a file that ends here, unless a string is open.
    pub fn end(self) -> Result<Vec<Token>, LexFault>
        requires { self.at < 2 ^ 32 }
        ensures { result ≡ (if string_is_open self.mode self.outer then Err (LexFault.Bad LexKind.UnclosedString self.at) else Ok self.tokens) }
    {
        let Reader {
            tokens,
            at,
            mode,
            outer,
        } = self;
        if string_is_open(mode, outer) {
            Err(LexFault::Bad(LexKind::UnclosedString, at as u32))
        } else {
            Ok(tokens)
        }
    }
}

/// What the bytes behind a turn are read as.
fn turned(outer: &mut LinkedList<Mode>, turn: Turn) -> Result<Mode, AllocError>
    ensures { IfOk result (λ mode. record { mode = mode; outer = outer.new } ≡ turned (turn_told turn) outer.old) }
{
    match turn {
        Turn::Goes(mode) => Ok(mode),
        Turn::Enters(back) => {
            outer.push_front(back)?;
            Ok(Mode::Code)
        }
        Turn::Leaves => Ok(outer.pop_front().unwrap_or(Mode::Code)),
    }
}

/// Whether a piece of a string has to follow, here or behind an open brace.
fn string_is_open(mode: Mode, mut outer: LinkedList<Mode>) -> bool
    ensures { result ≡ string_is_open mode outer }
{
    let mut here = mode;
    while !in_string(here) {
        match outer.pop_front() {
            Some(back) => here = back,
            None => return false,
        }
    }
    true
}

fn in_string(mode: Mode) -> bool
    ensures { result ≡ in_string mode }
{
    matches!(mode, Mode::Piece | Mode::Interpolation)
}

/// Appends the tokens that were found at an offset.
fn push_found(
    tokens: &mut Vec<Token>,
    at: usize,
    length: usize,
    found: Found,
) -> Result<(), AllocError>
    requires { EndBefore (2 ^ 32) (found_tokens at length found) }
    ensures { OnOk result (tokens.new.items ≡ tokens.old.items ++ found_tokens at length found) }
{
    match found {
        Found::Skipped => Ok(()),
        Found::Token(kind) => push_token(tokens, at, length, kind),
        Found::Interpolated { name, behind } => {
            let length = 1 + name.len();
            push_token(tokens, at, length, Kind::Variable(name))?;
            push_behind(tokens, at + length, behind)
        }
    }
}

/// Appends the tokens that follow a variable in a string.
fn push_behind(tokens: &mut Vec<Token>, at: usize, behind: Behind) -> Result<(), AllocError>
    requires { EndBefore (2 ^ 32) (behind_tokens at behind) }
    ensures { OnOk result (tokens.new.items ≡ tokens.old.items ++ behind_tokens at behind) }
{
    match behind {
        Behind::Alone => Ok(()),
        Behind::Key(Key { kind, length }) => {
            push_token(tokens, at, 1, Kind::Mark(Mark::OpenBracket))?;
            push_token(tokens, 1 + at, length, kind)?;
            push_token(tokens, 1 + at + length, 1, Kind::Mark(Mark::CloseBracket))
        }
        Behind::Property(name) => {
            push_token(tokens, at, 2, Kind::Mark(Mark::Arrow))?;
            let length = name.len();
            push_token(tokens, 2 + at, length, Kind::Name(name))
        }
    }
}

/// Appends a token of so many bytes at an offset.
fn push_token(
    tokens: &mut Vec<Token>,
    at: usize,
    length: usize,
    kind: Kind,
) -> Result<(), AllocError>
    requires { at + length < 2 ^ 32 }
    ensures { OnOk result (tokens.new.items ≡ tokens.old.items ++ token at length kind ∷ []) }
{
    tokens.push(Token {
        kind,
        start: at as u32,
        end: (at + length) as u32,
    })?;
    Ok(())
}
