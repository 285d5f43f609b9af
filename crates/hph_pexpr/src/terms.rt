//! Terms: destructuring, prefix operators, and `++` and `--` before a path.

ghost use Rattle.hph_cursor.specs.Reads.{Reads, ReadsAs};
ghost use Rattle.hph_enclosed.specs.Nests.{Nests, passes};
ghost use Rattle.hph_fexpr.specs.Parser.{parse};
ghost use Rattle.std.specs.Prelude.{◌≡◌, IfOk};
ghost use Rattle.hph_ast.specs.declared.expr.ArrayForm.TheVariants.{Targets};
ghost use Rattle.hph_ast.specs.declared.expr.Expr.TheVariants as e;
ghost use Rattle.hph_ast.specs.Places as places;
ghost use Rattle.hph_fexpr.specs.Terms as spec;

use crate::operators::Operators;
use hph_ast::{ArrayForm, Expr, Mark, Prefix, Token, Update};
use hph_cursor::nodes::{destructure_of, pre_update_of, prefix_of};
use hph_cursor::{Cursor, ParseFault, is_written, on, prefix_level, span};
use hph_fexpr::{Elements, Form};
use hph_postfix::array_of;
use sqlite_items::Boxed;
use std::alloc::{AllocError, Global};

const UPDATE_LEVEL: u8 = 21;

pub const ASSIGN_LEVEL: u8 = 5;

impl<F: Fn(Global, &mut Cursor<'_>, usize, Form) -> Result<Boxed<Expr>, ParseFault>> Operators<F> {
    #[tactic(auto, unfolding(hph_fexpr::specs::Terms::prefixed))]
    fn prefixed(&self, cursor: &mut Cursor<'_>, operator: Prefix) -> Result<Boxed<Expr>, ParseFault>
        requires { Nests self.now.below.parts.depth (F.pre self.now.below.parts.nested) (F.post self.now.below.parts.nested) }
        ensures { Reads (spec.prefixed self.now.below.parts.depth (parse self.now.below.parts.depth) operator cursor.old) result cursor.new }
    {
        let first = cursor.take()?;
        let operand = self.below.parts.level(cursor, prefix_level(operator) + 1)?;
        Ok(prefix_of(self.below.parts.alloc, on(first), operator, operand)?)
    }

    /// `++` or `--` before a path.
    #[tactic(auto, unfolding(hph_fexpr::specs::Terms::pre_updated))]
    fn pre_updated(&self, cursor: &mut Cursor<'_>, form: Update) -> Result<Boxed<Expr>, ParseFault>
        requires { Nests self.now.below.parts.depth (F.pre self.now.below.parts.nested) (F.post self.now.below.parts.nested) }
        ensures { Reads (spec.pre_updated self.now.below.parts.depth (parse self.now.below.parts.depth) form cursor.old) result cursor.new }
    {
        let first = cursor.take()?;
        let path = self.below.postfix(cursor)?;
        if !is_written(path.get()) || cursor.binds() > UPDATE_LEVEL {
            return Err(cursor.refuse());
        }
        Ok(pre_update_of(self.below.parts.alloc, on(first), form, path)?)
    }

    /// At `=`.
    #[tactic(auto, unfolding(hph_fexpr::specs::Terms::destructured))]
    fn destructured(
        &self,
        cursor: &mut Cursor<'_>,
        opening: &Token,
        found: Elements,
    ) -> Result<Boxed<Expr>, ParseFault>
        requires { Nests self.now.below.parts.depth (F.pre self.now.below.parts.nested) (F.post self.now.below.parts.nested) }
        ensures { Reads (spec.destructured self.now.below.parts.depth (parse self.now.below.parts.depth) opening.now found cursor.old) result cursor.new }
    {
        cursor.take()?;
        let value = self.below.parts.level(cursor, ASSIGN_LEVEL + 1)?;
        Ok(destructure_of(self.below.parts.alloc, on(opening), found.items, value)?)
    }

    #[tactic(auto, unfolding(hph_fexpr::specs::Terms::from_array))]
    fn from_array(
        &self,
        cursor: &mut Cursor<'_>,
        opening: &Token,
        found: Elements,
        alone: bool,
    ) -> Result<Boxed<Expr>, ParseFault>
        requires { Nests self.now.below.parts.depth (F.pre self.now.below.parts.nested) (F.post self.now.below.parts.nested) }
        ensures { Reads (spec.from_array self.now.below.parts.depth (parse self.now.below.parts.depth) alone opening.now found cursor.old) result cursor.new }
    {
        let array = array_of(
            self.below.parts.alloc,
            cursor,
            opening,
            ArrayForm::Short,
            found,
        )?;
        let path = self.below.goes_on(cursor, array)?;
        self.path_used(cursor, path, alone)
    }

    /// Elements that are no array, in a destructuring.
    fn targets(&self, opening: &Token, found: Elements) -> Result<Boxed<Expr>, AllocError>
        ensures { IfOk result (λ r. r ≡ e.Array (places.span (places.on opening.now) found.close) Targets found.items) }
    {
        Boxed::new(
            self.below.parts.alloc,
            Expr::Array {
                at: span(on(opening), found.close),
                form: ArrayForm::Targets,
                items: found.items,
            },
        )
    }

    /// Behind the elements between brackets, where no `=` is next.
    #[tactic(auto, unfolding(hph_fexpr::specs::Terms::undestructured))]
    fn undestructured(
        &self,
        cursor: &mut Cursor<'_>,
        opening: &Token,
        found: Elements,
        alone: bool,
    ) -> Result<Boxed<Expr>, ParseFault>
        requires { Nests self.now.below.parts.depth (F.pre self.now.below.parts.nested) (F.post self.now.below.parts.nested) }
        ensures { Reads (spec.undestructured self.now.below.parts.depth (parse self.now.below.parts.depth) alone opening.now found cursor.old) result cursor.new }
    {
        if alone && (found.targets && cursor.binds() < 1) {
            return Ok(self.targets(opening, found)?);
        }
        self.from_array(cursor, opening, found, alone)
    }

    /// An array, or the left side of a destructuring.
    #[tactic(auto, unfolding(hph_fexpr::specs::Terms::bracketed))]
    fn bracketed(&self, cursor: &mut Cursor<'_>, alone: bool) -> Result<Boxed<Expr>, ParseFault>
        requires { Nests self.now.below.parts.depth (F.pre self.now.below.parts.nested) (F.post self.now.below.parts.nested) }
        ensures { Reads (spec.bracketed self.now.below.parts.depth (parse self.now.below.parts.depth) alone cursor.old) result cursor.new }
    {
        let opening = cursor.take()?;
        let found = self.below.parts.elements(cursor, Mark::CloseBracket)?;
        if cursor.sees_set() {
            self.destructured(cursor, opening, found)
        } else {
            self.undestructured(cursor, opening, found, alone)
        }
    }

    fn operand(&self, cursor: &mut Cursor<'_>, alone: bool) -> Result<Boxed<Expr>, ParseFault>
        requires { Nests self.now.below.parts.depth (F.pre self.now.below.parts.nested) (F.post self.now.below.parts.nested) }
        ensures { Reads (spec.operand self.now.below.parts.depth (parse self.now.below.parts.depth) alone cursor.old) result cursor.new }
    {
        if cursor.sees(Mark::OpenBracket) {
            return self.bracketed(cursor, alone);
        }
        let path = self.below.postfix(cursor)?;
        self.path_used(cursor, path, alone)
    }

    /// What may stand at either side of an operator; or, where an element may stand alone, what is only written.
    #[tactic(auto, unfolding(hph_fexpr::specs::Terms::term))]
    pub fn term(&self, cursor: &mut Cursor<'_>, alone: bool) -> Result<Boxed<Expr>, ParseFault>
        requires { Nests self.now.below.parts.depth (F.pre self.now.below.parts.nested) (F.post self.now.below.parts.nested) }
        ensures { Reads (spec.term self.now.below.parts.depth (parse self.now.below.parts.depth) alone cursor.old) result cursor.new }
    {
        if let Some(operator) = cursor.prefix() {
            return self.prefixed(cursor, operator);
        }
        if let Some(form) = cursor.pre_update() {
            return self.pre_updated(cursor, form);
        }
        self.operand(cursor, alone)
    }
}
