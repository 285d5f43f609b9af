//! Strings with interpolations: PHP manual, Strings, Variable parsing.

ghost use Rattle.hph_cursor.specs.Reads.{Reads, ReadsAs};
ghost use Rattle.hph_enclosed.specs.Nests.{Nests, passes};
ghost use Rattle.hph_fexpr.specs.Parser.{parse};
ghost use Rattle.std.specs.Prelude.{◌≡◌, length, IfOk, Option, Some};
ghost use Rattle.hph_ast.specs.declared.expr.Expr.TheVariants as e;
ghost use Rattle.hph_ast.specs.declared.expr.StringPart.TheVariants as part;
ghost use Rattle.hph_ast.specs.Places as places;
ghost use Rattle.hph_fexpr.specs.Strings as spec;

use crate::grammar::Grammar;
use crate::names::named_of;
use hph_ast::{At, Expr, Kind, Mark, Step, StringPart, Token};
use hph_cursor::nodes::{one_step_of, only};
use hph_cursor::{Cursor, ParseFault, on, span};
use hph_fexpr::Form;
use sqlite_items::{Boxed, Items};
use std::alloc::{AllocError, Global};

/// A variable.
pub fn variable_of(
    alloc: Global,
    token: &Token,
    name: &Items<u8>,
) -> Result<Boxed<Expr>, AllocError>
    ensures { IfOk result (λ r. r ≡ e.Variable (places.on token.now) name.now) }
{
    let name = Items::from_slice(alloc, name.as_slice())?;
    Boxed::new(
        alloc,
        Expr::Variable {
            at: on(token),
            name,
        },
    )
}

/// A piece of a string.
fn piece_of(alloc: Global, token: &Token, bytes: &Items<u8>) -> Result<StringPart, AllocError>
    ensures { IfOk result (λ r. r ≡ part.Piece (places.on token.now) bytes.now) }
{
    let bytes = Items::from_slice(alloc, bytes.as_slice())?;
    Ok(StringPart::Piece {
        at: on(token),
        bytes,
    })
}

impl<F: Fn(Global, &mut Cursor<'_>, usize, Form) -> Result<Boxed<Expr>, ParseFault>> Grammar<F> {
    /// The key in `$v[..]`.
    #[tactic(auto, unfolding(hph_fexpr::specs::Strings::key))]
    fn key(&self, cursor: &mut Cursor<'_>) -> Result<Boxed<Expr>, ParseFault>
        requires { Nests self.now.depth (F.pre self.now.nested) (F.post self.now.nested) }
        ensures { Reads (spec.key cursor.old) result cursor.new }
    {
        let token = cursor.take()?;
        match &token.kind {
            Kind::Name(name) => Ok(Boxed::new(
                self.alloc,
                Expr::Text {
                    at: on(token),
                    bytes: Items::from_slice(self.alloc, name.as_slice())?,
                },
            )?),
            Kind::Variable(name) => Ok(variable_of(self.alloc, token, name)?),
            Kind::Int(value) => Ok(Boxed::new(
                self.alloc,
                Expr::Int {
                    at: on(token),
                    value: *value,
                },
            )?),
            _ => Err(cursor.refuse()),
        }
    }

    /// Behind `$v`, at `[`.
    #[tactic(auto, unfolding(hph_fexpr::specs::Strings::simple_index))]
    fn simple_index(
        &self,
        cursor: &mut Cursor<'_>,
        token: &Token,
        name: &Items<u8>,
    ) -> Result<Boxed<Expr>, ParseFault>
        requires { Nests self.now.depth (F.pre self.now.nested) (F.post self.now.nested) }
        ensures { Reads (spec.simple_index token.now name.now cursor.old) result cursor.new }
    {
        let opening = cursor.take()?;
        let key = self.key(cursor)?;
        let close = on(cursor.expect(Mark::CloseBracket)?);
        let base = variable_of(self.alloc, token, name)?;
        let at = span(on(opening), close);
        Ok(one_step_of(
            self.alloc,
            span(on(token), close),
            base,
            Step::Index { at, key },
        )?)
    }

    /// Behind `$v`, at `->`.
    #[tactic(auto, unfolding(hph_fexpr::specs::Strings::simple_property))]
    fn simple_property(
        &self,
        cursor: &mut Cursor<'_>,
        token: &Token,
        name: &Items<u8>,
    ) -> Result<Boxed<Expr>, ParseFault>
        requires { Nests self.now.depth (F.pre self.now.nested) (F.post self.now.nested) }
        ensures { Reads (spec.simple_property token.now name.now cursor.old) result cursor.new }
    {
        let arrow = cursor.take()?;
        let member = cursor.take()?;
        let Kind::Name(property) = &member.kind else {
            return Err(cursor.refuse());
        };
        let base = variable_of(self.alloc, token, name)?;
        let name = named_of(self.alloc, property)?;
        let at = span(on(arrow), on(member));
        Ok(one_step_of(
            self.alloc,
            span(on(token), on(member)),
            base,
            Step::Property { at, name },
        )?)
    }

    #[tactic(auto, unfolding(hph_fexpr::specs::Strings::simple))]
    fn simple(
        &self,
        cursor: &mut Cursor<'_>,
        token: &Token,
        name: &Items<u8>,
    ) -> Result<Boxed<Expr>, ParseFault>
        requires { Nests self.now.depth (F.pre self.now.nested) (F.post self.now.nested) }
        ensures { Reads (spec.simple token.now name.now cursor.old) result cursor.new }
    {
        if cursor.sees(Mark::OpenBracket) {
            self.simple_index(cursor, token, name)
        } else if cursor.sees(Mark::Arrow) {
            self.simple_property(cursor, token, name)
        } else {
            Ok(variable_of(self.alloc, token, name)?)
        }
    }

    /// Behind `{`.
    #[tactic(auto, unfolding(hph_fexpr::specs::Strings::in_braces))]
    fn in_braces(&self, cursor: &mut Cursor<'_>) -> Result<Boxed<Expr>, ParseFault>
        requires { Nests self.now.depth (F.pre self.now.nested) (F.post self.now.nested) }
        ensures { Reads (spec.in_braces (parse self.now.depth) cursor.old) result cursor.new }
    {
        if !cursor.sees_variable() {
            return Err(cursor.refuse());
        }
        let value = self.level(cursor, 1)?;
        cursor.expect(Mark::CloseBrace)?;
        Ok(value)
    }

    #[tactic(auto, unfolding(hph_fexpr::specs::Strings::interpolation))]
    fn interpolation(&self, cursor: &mut Cursor<'_>) -> Result<Boxed<Expr>, ParseFault>
        requires { Nests self.now.depth (F.pre self.now.nested) (F.post self.now.nested) }
        ensures { Reads (spec.interpolation (parse self.now.depth) cursor.old) result cursor.new }
    {
        let token = cursor.take()?;
        match &token.kind {
            Kind::Variable(name) => self.simple(cursor, token, name),
            Kind::Mark(Mark::OpenInterpolation) => self.in_braces(cursor),
            _ => Err(cursor.refuse()),
        }
    }

    /// Interpolations and the pieces behind them, and the place where they end.
    fn parts(
        &self,
        cursor: &mut Cursor<'_>,
        mut found: Items<StringPart>,
    ) -> Result<(Items<StringPart>, At), ParseFault>
        requires { Nests self.now.depth (F.pre self.now.nested) (F.post self.now.nested) }
        ensures { Reads (spec.parts_from (parse self.now.depth) (length cursor.old) found cursor.old) result cursor.new }
    {
        for _turn in 0..cursor.left() {
            let value = self.interpolation(cursor)?;
            found.push(StringPart::Interpolation { value })?;
            let token = cursor.take()?;
            match &token.kind {
                Kind::TextTail(bytes) => {
                    found.push(piece_of(self.alloc, token, bytes)?)?;
                    return Ok((found, on(token)));
                }
                Kind::TextMiddle(bytes) => found.push(piece_of(self.alloc, token, bytes)?)?,
                _ => return Err(cursor.refuse()),
            }
        }
        Err(cursor.refuse())
    }

    /// A string behind its head.
    #[tactic(auto, unfolding(hph_fexpr::specs::Strings::interpolated))]
    pub fn interpolated(
        &self,
        cursor: &mut Cursor<'_>,
        head: &Token,
        bytes: &Items<u8>,
    ) -> Result<Boxed<Expr>, ParseFault>
        requires { Nests self.now.depth (F.pre self.now.nested) (F.post self.now.nested) }
        ensures { Reads (spec.interpolated (parse self.now.depth) head.now bytes.now cursor.old) result cursor.new }
    {
        let first = piece_of(self.alloc, head, bytes)?;
        let (parts, last) = self.parts(cursor, only(self.alloc, first)?)?;
        Ok(Boxed::new(
            self.alloc,
            Expr::Interpolated {
                at: span(on(head), last),
                parts,
            },
        )?)
    }
}
