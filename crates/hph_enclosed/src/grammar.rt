//! The parser of what is nested as a parameter, so that each rule is proved by itself.

ghost use Rattle.hph_cursor.specs.Reads.{Reads};
ghost use Rattle.hph_fexpr.specs.declared.form.Form.TheVariants as form;
ghost use Rattle.hph_enclosed.specs.Nests.{Nests};
ghost use Rattle.hph_fexpr.specs.Parser.{parse};

use hph_ast::Expr;
use hph_cursor::{Cursor, ParseFault};
use hph_fexpr::Form;
use sqlite_items::Boxed;
use std::alloc::Global;

/// The rules of the grammar, with what reads the parts that are nested one deeper.
#[derive(Clone, Copy)]
pub struct Grammar<F> {
    pub alloc: Global,
    /// How deep the parts may still nest.
    pub depth: usize,
    pub nested: F,
}

impl<F: Fn(Global, &mut Cursor<'_>, usize, Form) -> Result<Boxed<Expr>, ParseFault>> Grammar<F> {
    /// An expression of a level.
    pub fn level(&self, cursor: &mut Cursor<'_>, least: u8) -> Result<Boxed<Expr>, ParseFault>
        requires { Nests self.now.depth (F.pre self.now.nested) (F.post self.now.nested) }
        ensures { Reads (parse self.now.depth (form.Level least) cursor.old) result cursor.new }
    {
        (self.nested)(self.alloc, cursor, self.depth, Form::Level(least))
    }

    /// An expression, or what is only written, as an element of an array or a destructuring.
    pub fn value(&self, cursor: &mut Cursor<'_>) -> Result<Boxed<Expr>, ParseFault>
        requires { Nests self.now.depth (F.pre self.now.nested) (F.post self.now.nested) }
        ensures { Reads (parse self.now.depth form.Element cursor.old) result cursor.new }
    {
        (self.nested)(self.alloc, cursor, self.depth, Form::Element)
    }

    /// An expression without operators.
    pub fn path(&self, cursor: &mut Cursor<'_>) -> Result<Boxed<Expr>, ParseFault>
        requires { Nests self.now.depth (F.pre self.now.nested) (F.post self.now.nested) }
        ensures { Reads (parse self.now.depth form.Postfix cursor.old) result cursor.new }
    {
        (self.nested)(self.alloc, cursor, self.depth, Form::Postfix)
    }
}
