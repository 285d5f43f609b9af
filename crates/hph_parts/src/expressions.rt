//! What reads the expressions in statements.

ghost use Rattle.hph_ast.specs.Shapes.{is_written};
ghost use Rattle.hph_ast.specs.declared.token.Mark.TheVariants.{CloseBracket};
ghost use Rattle.hph_cursor.specs.Reads.{Reads};
ghost use Rattle.hph_fexpr.specs.Arrays.{elements, source};
ghost use Rattle.hph_fexpr.specs.Lists.{paths};
ghost use Rattle.hph_fexpr.specs.declared.form.Form.TheVariants.{Level};
ghost use Rattle.hph_fstmt.specs.Parser as spec;

use hph_ast::{At, Expr};
use hph_cursor::{Cursor, ParseFault};
use hph_fexpr::Elements;
use sqlite_items::{Boxed, Items};
use std::alloc::Global;

/// A parser of expressions that nest no deeper than a file's may. What follows what it reads is left.
pub trait Expressions {
    /// An expression with all its operators.
    fn expression(&self, alloc: Global, cursor: &mut Cursor<'_>) -> Result<Boxed<Expr>, ParseFault>
        ensures { Reads (spec.expressions (Level 1) cursor.old) result cursor.new };

    /// Paths that may be written, behind `(`, and the place of the `)`.
    fn written_paths(
        &self,
        alloc: Global,
        cursor: &mut Cursor<'_>,
    ) -> Result<(Items<Expr>, At), ParseFault>
        ensures { Reads (paths spec.expressions is_written cursor.old) result cursor.new };

    /// A path behind `&`.
    fn source(&self, alloc: Global, cursor: &mut Cursor<'_>) -> Result<Boxed<Expr>, ParseFault>
        ensures { Reads (source spec.expressions cursor.old) result cursor.new };

    /// Elements and holes behind `[`, up to the `]`.
    fn targets(&self, alloc: Global, cursor: &mut Cursor<'_>) -> Result<Elements, ParseFault>
        ensures { Reads (elements spec.expressions CloseBracket cursor.old) result cursor.new };
}
