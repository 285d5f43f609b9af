//! Parentheses, and names of members: PHP manual, Variables, and Scope Resolution Operator.

ghost use Rattle.hph_cursor.specs.Reads.{Reads, ReadsAs};
ghost use Rattle.hph_enclosed.specs.Nests.{Nests, passes};
ghost use Rattle.hph_fexpr.specs.Parser.{parse};
ghost use Rattle.std.specs.Prelude.{◌≡◌, IfOk};
ghost use Rattle.hph_ast.specs.declared.expr.Expr.TheVariants as e;
ghost use Rattle.hph_ast.specs.declared.expr.MemberName.TheVariants as n;
ghost use Rattle.hph_ast.specs.Places as places;
ghost use Rattle.hph_fexpr.specs.Classes as spec;

use crate::grammar::Grammar;
use crate::strings::variable_of;
use hph_ast::{At, Expr, Kind, Mark, MemberName, Token};
use hph_cursor::nodes::paren_of;
use hph_cursor::{Cursor, ParseFault, on, span};
use hph_fexpr::Form;
use sqlite_items::{Boxed, Items};
use std::alloc::{AllocError, Global};

/// A name as that of a member.
pub fn named_of(alloc: Global, name: &Items<u8>) -> Result<Boxed<MemberName>, AllocError>
    ensures { IfOk result (λ r. r ≡ n.Named name.now) }
{
    let name = Items::from_slice(alloc, name.as_slice())?;
    Boxed::new(alloc, MemberName::Named { name })
}

/// A variable as the name of a member.
pub fn named_by_variable(
    alloc: Global,
    token: &Token,
    name: &Items<u8>,
) -> Result<Boxed<MemberName>, AllocError>
    ensures { IfOk result (λ r. r ≡ n.Computed (e.Variable (places.on token.now) name.now)) }
{
    let name = variable_of(alloc, token, name)?;
    Boxed::new(alloc, MemberName::Computed { name })
}

impl<F: Fn(Global, &mut Cursor<'_>, usize, Form) -> Result<Boxed<Expr>, ParseFault>> Grammar<F> {
    /// Behind `(`.
    #[tactic(auto, unfolding(hph_fexpr::specs::Classes::parenthesis))]
    pub fn parenthesis(
        &self,
        cursor: &mut Cursor<'_>,
        opening: &Token,
    ) -> Result<Boxed<Expr>, ParseFault>
        requires { Nests self.now.depth (F.pre self.now.nested) (F.post self.now.nested) }
        ensures { Reads (spec.parenthesis (parse self.now.depth) opening.now cursor.old) result cursor.new }
    {
        let inner = self.level(cursor, 1)?;
        let close = cursor.expect(Mark::CloseParen)?;
        Ok(paren_of(self.alloc, span(on(opening), on(close)), inner)?)
    }

    /// The name of a member behind `{`, and the place of `}`.
    #[tactic(auto, unfolding(hph_fexpr::specs::Classes::computed))]
    pub fn computed(&self, cursor: &mut Cursor<'_>) -> Result<(Boxed<MemberName>, At), ParseFault>
        requires { Nests self.now.depth (F.pre self.now.nested) (F.post self.now.nested) }
        ensures { Reads (spec.computed (parse self.now.depth) cursor.old) result cursor.new }
    {
        let name = self.level(cursor, 1)?;
        let close = on(cursor.expect(Mark::CloseBrace)?);
        Ok((
            Boxed::new(self.alloc, MemberName::Computed { name })?,
            close,
        ))
    }

    /// The name of a member, and the place where it ends.
    #[tactic(auto, unfolding(hph_fexpr::specs::Classes::member))]
    pub fn member(&self, cursor: &mut Cursor<'_>) -> Result<(Boxed<MemberName>, At), ParseFault>
        requires { Nests self.now.depth (F.pre self.now.nested) (F.post self.now.nested) }
        ensures { Reads (spec.member (parse self.now.depth) cursor.old) result cursor.new }
    {
        let token = cursor.take()?;
        match &token.kind {
            Kind::Name(name) => Ok((named_of(self.alloc, name)?, on(token))),
            Kind::Variable(name) => Ok((named_by_variable(self.alloc, token, name)?, on(token))),
            Kind::Mark(Mark::OpenBrace) => self.computed(cursor),
            _ => Err(cursor.refuse()),
        }
    }
}
