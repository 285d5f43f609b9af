//! A place in a list of tokens.

ghost use Rattle.std.specs.Prelude.{◌≡◌, length};
ghost use Rattle.std.specs.Option.{option_copied};
ghost use Rattle.hph_ast.specs.Levels as levels;
ghost use Rattle.hph_cursor.specs.Steps as steps;
ghost use Rattle.hph_cursor.specs.Next as next;
ghost use Rattle.hph_cursor.specs.Reads.{ReadsAs};

use crate::error::ParseFault;
use crate::kinds::{
    assignment_of, binary_of, binds, is_ampersand, is_instance_of, is_mark, is_set_kind,
    is_variable, operator_of, post_update_of, pre_update_of, prefix_of,
};
use hph_ast::{Assignment, Binary, Kind, Mark, Prefix, Token, Update};
use sqlite_items::Items;
use std::marker::Model;

/// The tokens from a place on.
#[derive(Drop)]
pub struct Cursor<'a> {
    rest: &'a [Token],
    /// How many tokens there are in all.
    total: usize,
}

impl<'a> Model for Cursor<'a> {
    ghost use Rattle.std.specs.Prelude.{List};
    ghost use Rattle.hph_ast.specs.declared.token.Token.{Token};

    ghost Value = { List Token };

    ghost view = { λ c. c.rest.now };
}

impl<'a> Cursor<'a> {
    /// The tokens `rest`, the last of `total` ones.
    pub fn new(rest: &'a [Token], total: usize) -> Cursor<'a>
        ensures { result ≡ rest.now }
    {
        Cursor { rest, total }
    }

    /// How many tokens are left.
    pub fn left(&self) -> usize
        ensures { result ≡ length self.now }
    {
        self.rest.len()
    }

    /// The tokens that are left.
    pub fn rest(&self) -> &'a [Token]
        ensures { result.now ≡ self.now }
    {
        self.rest
    }

    /// The fault that the next token cannot follow.
    pub fn refuse(&self) -> ParseFault {
        ParseFault::Syntax(self.total.saturating_sub(self.rest.len()))
    }

    /// Takes a token.
    pub fn take(&mut self) -> Result<&'a Token, ParseFault>
        ensures { ReadsAs (λ t. t.now) (steps.take_token self.old) result self.new }
    {
        match self.rest {
            [] => Err(self.refuse()),
            [token, rest @ ..] => {
                self.rest = rest;
                Ok(token)
            }
        }
    }

    /// Takes a token that is this mark.
    pub fn expect(&mut self, mark: Mark) -> Result<&'a Token, ParseFault>
        ensures { ReadsAs (λ t. t.now) (steps.expect mark self.old) result self.new }
    {
        match self.rest {
            [token, rest @ ..] if is_mark(mark, &token.kind) => {
                self.rest = rest;
                Ok(token)
            }
            _ => Err(self.refuse()),
        }
    }

    /// Whether the next token is this mark.
    pub fn sees(&self, mark: Mark) -> bool
        ensures { result ≡ steps.sees mark self.now }
    {
        match self.rest {
            [] => false,
            [token, ..] => is_mark(mark, &token.kind),
        }
    }

    /// Whether a reference's `&` is next.
    pub fn sees_ampersand(&self) -> bool
        ensures { result ≡ next.is_next next.is_ampersand self.now }
    {
        match self.rest {
            [] => false,
            [token, ..] => is_ampersand(&token.kind),
        }
    }

    /// Whether `instanceof` is next.
    pub fn sees_instance_of(&self) -> bool
        ensures { result ≡ next.is_next next.is_instance_of self.now }
    {
        match self.rest {
            [] => false,
            [token, ..] => is_instance_of(&token.kind),
        }
    }

    /// Whether a variable is next.
    pub fn sees_variable(&self) -> bool
        ensures { result ≡ next.is_next next.is_variable self.now }
    {
        match self.rest {
            [] => false,
            [token, ..] => is_variable(&token.kind),
        }
    }

    /// Whether `=` is next.
    pub fn sees_set(&self) -> bool
        ensures { result ≡ next.is_next next.is_set_kind self.now }
    {
        match self.rest {
            [] => false,
            [token, ..] => is_set_kind(&token.kind),
        }
    }

    /// The assignment operator that is next.
    pub fn assignment(&self) -> Option<Assignment>
        ensures { result ≡ next.of_next next.assignment_of self.now }
    {
        match self.rest {
            [] => None,
            [token, ..] => assignment_of(&token.kind),
        }
    }

    /// The prefix operator that is next.
    pub fn prefix(&self) -> Option<Prefix>
        ensures { result ≡ next.of_next levels.prefix_of self.now }
    {
        match self.rest {
            [] => None,
            [token, ..] => prefix_of(&token.kind),
        }
    }

    /// The binary operator that is next.
    pub fn binary(&self) -> Option<Binary>
        ensures { result ≡ next.of_next next.binary_of self.now }
    {
        match self.rest {
            [] => None,
            [token, ..] => binary_of(&token.kind),
        }
    }

    /// The binary operator of this level that is next.
    pub fn operator(&self, level: u8) -> Option<Binary>
        ensures { result ≡ next.of_next (next.operator_of level) self.now }
    {
        match self.rest {
            [] => None,
            [token, ..] => operator_of(level, &token.kind),
        }
    }

    /// The `++` or `--` before a path that is next.
    pub fn pre_update(&self) -> Option<Update>
        ensures { result ≡ next.of_next next.pre_update_of self.now }
    {
        match self.rest {
            [] => None,
            [token, ..] => pre_update_of(&token.kind),
        }
    }

    /// The `++` or `--` behind a path that is next.
    pub fn post_update(&self) -> Option<Update>
        ensures { result ≡ next.of_next next.post_update_of self.now }
    {
        match self.rest {
            [] => None,
            [token, ..] => post_update_of(&token.kind),
        }
    }

    /// The name and the colon of an argument that are next.
    pub fn argument_name(&self) -> Option<&'a Items<u8>>
        ensures { option_copied result ≡ next.argument_name self.now }
    {
        match self.rest {
            [token, colon, ..] => match &token.kind {
                Kind::Name(name) if is_mark(Mark::Colon, &colon.kind) => Some(name),
                _ => None,
            },
            _ => None,
        }
    }

    /// How tightly the next token binds to what stands before it.
    pub fn binds(&self) -> u8
        ensures { result ≡ levels.next self.now }
    {
        match self.rest {
            [] => 0,
            [token, ..] => binds(&token.kind),
        }
    }
}
