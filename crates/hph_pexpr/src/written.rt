//! What is done with a path: it is read, assigned to, bound to another, or updated by `++` or `--` behind it.

ghost use Rattle.hph_cursor.specs.Reads.{Reads, ReadsAs};
ghost use Rattle.hph_enclosed.specs.Nests.{Nests};
ghost use Rattle.hph_fexpr.specs.Parser.{parse};
ghost use Rattle.std.specs.Prelude.{◌≡◌, suc, ◌&&◌, ◌||◌, Some, None, if◌then◌else◌, nat_lt};
ghost use Rattle.hph_ast.specs.declared.expr.Expr.TheVariants as e;
ghost use Rattle.hph_ast.specs.Levels.{assign_level, next};
ghost use Rattle.hph_ast.specs.Places as places;
ghost use Rattle.hph_ast.specs.Shapes.{is_read, is_written, is_source};
ghost use Rattle.hph_fexpr.specs.Terms as spec;

use crate::operators::Operators;
use crate::terms::ASSIGN_LEVEL;
use hph_ast::{Assignment, Expr, Update};
use hph_cursor::nodes::{assign_of, assign_reference_of, post_update_of};
use hph_cursor::{Cursor, ParseFault, is_read, is_set, is_source, is_written, on};
use hph_fexpr::Form;
use sqlite_items::Boxed;
use std::alloc::Global;

/// Whether a path is only written, and ends where an element may stand alone.
fn stands_alone(cursor: &Cursor<'_>, path: &Expr, alone: bool) -> bool
    ensures { result ≡ (alone && (is_written path.now && nat_lt (next cursor.now) 1)) }
{
    alone && (is_written(path) && cursor.binds() < 1)
}

/// A path that is read, behind which nothing stands that writes it; or, where an element may stand alone, one that is written.
fn unused(cursor: &Cursor<'_>, path: Boxed<Expr>, alone: bool) -> Result<Boxed<Expr>, ParseFault>
    ensures { Reads (if (alone && (is_written path && nat_lt (next cursor.now) 1)) || is_read path then Some (path, cursor.now) else None) result cursor.now }
{
    if stands_alone(cursor, path.get(), alone) || is_read(path.get()) {
        Ok(path)
    } else {
        Err(cursor.refuse())
    }
}

impl<F: Fn(Global, &mut Cursor<'_>, usize, Form) -> Result<Boxed<Expr>, ParseFault>> Operators<F> {
    /// `++` or `--` behind a path.
    #[tactic(auto, unfolding(hph_fexpr::specs::Terms::post_updated))]
    fn post_updated(
        &self,
        cursor: &mut Cursor<'_>,
        path: Boxed<Expr>,
        form: Update,
    ) -> Result<Boxed<Expr>, ParseFault>
        requires { Nests self.now.below.parts.depth (F.pre self.now.below.parts.nested) (F.post self.now.below.parts.nested) }
        ensures { Reads (spec.post_updated self.now.below.parts.depth (parse self.now.below.parts.depth) path form cursor.old) result cursor.new }
    {
        let last = cursor.take()?;
        Ok(post_update_of(self.below.parts.alloc, path, form, on(last))?)
    }

    /// Behind the path that is bound, which is to be a source.
    fn bound_to(
        &self,
        cursor: &Cursor<'_>,
        target: Boxed<Expr>,
        source: Boxed<Expr>,
        ampersand: u32,
    ) -> Result<Boxed<Expr>, ParseFault>
        ensures { Reads (if is_source source then spec.stopped (suc assign_level) (e.AssignReference (places.span (places.place target) (places.place source)) target source ampersand) cursor.now else None) result cursor.now }
    {
        if !is_source(source.get()) || cursor.binds() > ASSIGN_LEVEL {
            return Err(cursor.refuse());
        }
        Ok(assign_reference_of(self.below.parts.alloc, target, source, ampersand)?)
    }

    /// Behind `=`, at `&`.
    #[tactic(auto, unfolding(hph_fexpr::specs::Terms::bound))]
    fn bound(&self, cursor: &mut Cursor<'_>, target: Boxed<Expr>) -> Result<Boxed<Expr>, ParseFault>
        requires { Nests self.now.below.parts.depth (F.pre self.now.below.parts.nested) (F.post self.now.below.parts.nested) }
        ensures { Reads (spec.bound self.now.below.parts.depth (parse self.now.below.parts.depth) target cursor.old) result cursor.new }
    {
        let ampersand = cursor.take()?;
        let source = self.below.postfix(cursor)?;
        self.bound_to(cursor, target, source, ampersand.start)
    }

    #[tactic(auto, unfolding(hph_fexpr::specs::Terms::valued_by))]
    fn valued_by(
        &self,
        cursor: &mut Cursor<'_>,
        target: Boxed<Expr>,
        operator: Assignment,
    ) -> Result<Boxed<Expr>, ParseFault>
        requires { Nests self.now.below.parts.depth (F.pre self.now.below.parts.nested) (F.post self.now.below.parts.nested) }
        ensures { Reads (spec.valued_by self.now.below.parts.depth (parse self.now.below.parts.depth) target operator cursor.old) result cursor.new }
    {
        let value = self.below.parts.level(cursor, ASSIGN_LEVEL + 1)?;
        Ok(assign_of(self.below.parts.alloc, operator, target, value)?)
    }

    /// At an assignment operator.
    #[tactic(auto, unfolding(hph_fexpr::specs::Terms::assigned))]
    fn assigned(
        &self,
        cursor: &mut Cursor<'_>,
        target: Boxed<Expr>,
        operator: Assignment,
    ) -> Result<Boxed<Expr>, ParseFault>
        requires { Nests self.now.below.parts.depth (F.pre self.now.below.parts.nested) (F.post self.now.below.parts.nested) }
        ensures { Reads (spec.assigned self.now.below.parts.depth (parse self.now.below.parts.depth) target operator cursor.old) result cursor.new }
    {
        cursor.take()?;
        if is_set(operator) && cursor.sees_ampersand() {
            self.bound(cursor, target)
        } else {
            self.valued_by(cursor, target, operator)
        }
    }

    /// A path behind which `++` or `--` stands.
    fn updated(
        &self,
        cursor: &mut Cursor<'_>,
        path: Boxed<Expr>,
        form: Update,
    ) -> Result<Boxed<Expr>, ParseFault>
        requires { Nests self.now.below.parts.depth (F.pre self.now.below.parts.nested) (F.post self.now.below.parts.nested) }
        ensures { Reads (if is_written path then spec.post_updated self.now.below.parts.depth (parse self.now.below.parts.depth) path form cursor.old else None) result cursor.new }
    {
        if !is_written(path.get()) {
            return Err(cursor.refuse());
        }
        self.post_updated(cursor, path, form)
    }

    /// A path behind which an assignment operator stands.
    fn written(
        &self,
        cursor: &mut Cursor<'_>,
        path: Boxed<Expr>,
        operator: Assignment,
    ) -> Result<Boxed<Expr>, ParseFault>
        requires { Nests self.now.below.parts.depth (F.pre self.now.below.parts.nested) (F.post self.now.below.parts.nested) }
        ensures { Reads (if is_written path then spec.assigned self.now.below.parts.depth (parse self.now.below.parts.depth) path operator cursor.old else None) result cursor.new }
    {
        if !is_written(path.get()) {
            return Err(cursor.refuse());
        }
        self.assigned(cursor, path, operator)
    }

    /// What stands behind a path.
    #[tactic(auto, unfolding(hph_fexpr::specs::Terms::path_used))]
    pub fn path_used(
        &self,
        cursor: &mut Cursor<'_>,
        path: Boxed<Expr>,
        alone: bool,
    ) -> Result<Boxed<Expr>, ParseFault>
        requires { Nests self.now.below.parts.depth (F.pre self.now.below.parts.nested) (F.post self.now.below.parts.nested) }
        ensures { Reads (spec.path_used self.now.below.parts.depth (parse self.now.below.parts.depth) alone path cursor.old) result cursor.new }
    {
        if let Some(form) = cursor.post_update() {
            return self.updated(cursor, path, form);
        }
        if let Some(operator) = cursor.assignment() {
            return self.written(cursor, path, operator);
        }
        unused(cursor, path, alone)
    }
}
