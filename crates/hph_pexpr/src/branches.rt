//! Choices: `? :` and `?:`.

ghost use Rattle.hph_cursor.specs.Reads.{Reads, ReadsAs};
ghost use Rattle.hph_cursor.specs.Steps.{and_then, pure};
ghost use Rattle.hph_enclosed.specs.Nests.{Nests};
ghost use Rattle.hph_fexpr.specs.Parser.{parse};
ghost use Rattle.hph_fexpr.specs.declared.form.Form.TheVariants as form;
ghost use Rattle.std.specs.Prelude.{◌≡◌, suc, [], ◌∷◌, length};
ghost use Rattle.hph_ast.specs.declared.expr.Expr.TheVariants as e;
ghost use Rattle.hph_ast.specs.Levels.{ternary_level};
ghost use Rattle.hph_ast.specs.Places as places;
ghost use Rattle.hph_fexpr.specs.Climb as spec;

use crate::operators::Operators;
use hph_ast::{Expr, Mark};
use hph_cursor::nodes::{only, short_ternary_of, ternary_of};
use hph_cursor::{Cursor, ParseFault};
use hph_fexpr::Form;
use sqlite_items::{Boxed, Items};
use std::alloc::Global;

const TERNARY_LEVEL: u8 = 6;

/// The test and the first branch of `test ? first : second`.
#[derive(Drop)]
struct Head {
    test: Boxed<Expr>,
    first: Boxed<Expr>,
}

impl<F: Fn(Global, &mut Cursor<'_>, usize, Form) -> Result<Boxed<Expr>, ParseFault>> Operators<F> {
    /// The tests and branches of `?:` behind the first.
    fn shorts(
        &self,
        cursor: &mut Cursor<'_>,
        mut found: Items<Expr>,
    ) -> Result<Items<Expr>, ParseFault>
        requires { Nests self.now.below.parts.depth (F.pre self.now.below.parts.nested) (F.post self.now.below.parts.nested) }
        ensures { Reads (spec.shorts_from (parse self.now.below.parts.depth) (length cursor.old) found cursor.old) result cursor.new }
    {
        for _turn in 0..cursor.left() {
            if !cursor.sees(Mark::Question) {
                return Ok(found);
            }
            cursor.take()?;
            cursor.expect(Mark::Colon)?;
            found.push(
                self.below
                    .parts
                    .level(cursor, TERNARY_LEVEL + 1)?
                    .into_inner(),
            )?;
        }
        Ok(found)
    }

    /// Behind the first branch of `?:`.
    fn short_from(
        &self,
        cursor: &mut Cursor<'_>,
        test: Boxed<Expr>,
        next: Boxed<Expr>,
    ) -> Result<Boxed<Expr>, ParseFault>
        requires { Nests self.now.below.parts.depth (F.pre self.now.below.parts.nested) (F.post self.now.below.parts.nested) }
        ensures { Reads (and_then (spec.shorts_from (parse self.now.below.parts.depth) (length cursor.old) (next ∷ []) cursor.old) (λ ys. pure (e.ShortTernary (places.span (places.place test) (places.last_expr (places.place test) ys)) test ys))) result cursor.new }
    {
        let found = self.shorts(cursor, only(self.below.parts.alloc, next.into_inner())?)?;
        Ok(short_ternary_of(self.below.parts.alloc, test, found)?)
    }

    /// Behind `?`, at `:`.
    #[tactic(auto, unfolding(hph_fexpr::specs::Climb::short))]
    fn short(&self, cursor: &mut Cursor<'_>, test: Boxed<Expr>) -> Result<Boxed<Expr>, ParseFault>
        requires { Nests self.now.below.parts.depth (F.pre self.now.below.parts.nested) (F.post self.now.below.parts.nested) }
        ensures { Reads (spec.short (parse self.now.below.parts.depth) test cursor.old) result cursor.new }
    {
        cursor.take()?;
        let next = self.below.parts.level(cursor, TERNARY_LEVEL + 1)?;
        self.short_from(cursor, test, next)
    }

    /// Behind `:`.
    fn last_branch(&self, cursor: &mut Cursor<'_>, head: Head) -> Result<Boxed<Expr>, ParseFault>
        requires { Nests self.now.below.parts.depth (F.pre self.now.below.parts.nested) (F.post self.now.below.parts.nested) }
        ensures { Reads (and_then (parse self.now.below.parts.depth (form.Level (suc ternary_level)) cursor.old) (λ z. pure (e.Ternary (places.span (places.place head.test) (places.place z)) head.test head.first z))) result cursor.new }
    {
        let second = self.below.parts.level(cursor, TERNARY_LEVEL + 1)?;
        Ok(ternary_of(self.below.parts.alloc, head.test, head.first, second)?)
    }

    /// Behind the first branch of `? :`.
    #[tactic(auto, unfolding(hph_fexpr::specs::Climb::other_branch))]
    fn other_branch(&self, cursor: &mut Cursor<'_>, head: Head) -> Result<Boxed<Expr>, ParseFault>
        requires { Nests self.now.below.parts.depth (F.pre self.now.below.parts.nested) (F.post self.now.below.parts.nested) }
        ensures { Reads (spec.other_branch (parse self.now.below.parts.depth) head.test head.first cursor.old) result cursor.new }
    {
        cursor.expect(Mark::Colon)?;
        self.last_branch(cursor, head)
    }

    /// Behind `?`.
    #[tactic(auto, unfolding(hph_fexpr::specs::Climb::ternary))]
    fn ternary(&self, cursor: &mut Cursor<'_>, test: Boxed<Expr>) -> Result<Boxed<Expr>, ParseFault>
        requires { Nests self.now.below.parts.depth (F.pre self.now.below.parts.nested) (F.post self.now.below.parts.nested) }
        ensures { Reads (spec.ternary (parse self.now.below.parts.depth) test cursor.old) result cursor.new }
    {
        let first = self.below.parts.level(cursor, 1)?;
        self.other_branch(cursor, Head { test, first })
    }

    /// At `?`.
    #[tactic(auto, unfolding(hph_fexpr::specs::Climb::questioned))]
    pub fn questioned(
        &self,
        cursor: &mut Cursor<'_>,
        test: Boxed<Expr>,
    ) -> Result<Boxed<Expr>, ParseFault>
        requires { Nests self.now.below.parts.depth (F.pre self.now.below.parts.nested) (F.post self.now.below.parts.nested) }
        ensures { Reads (spec.questioned (parse self.now.below.parts.depth) test cursor.old) result cursor.new }
    {
        cursor.take()?;
        if cursor.sees(Mark::Colon) {
            self.short(cursor, test)
        } else {
            self.ternary(cursor, test)
        }
    }
}
