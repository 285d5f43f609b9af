//! The parser of expressions, to a depth.

ghost use Rattle.hph_cursor.specs.Reads.{Reads};
ghost use Rattle.hph_fexpr.specs.Arrays as arrays;
ghost use Rattle.hph_fexpr.specs.Lists as lists;
ghost use Rattle.hph_enclosed.specs.Nests.{Nests, passes};
ghost use Rattle.hph_fexpr.specs.Parser as spec;
ghost use Rattle.hph_fexpr.specs.Parser.{parse};

use crate::operators::Operators;
use hph_ast::{At, Expr, Mark};
use hph_cursor::{Cursor, ParseFault};
use hph_enclosed::{Grammar, PathTest};
use hph_fexpr::{Elements, Form};
use hph_nest::expr_fits;
use hph_postfix::Chains;
use sqlite_items::{Boxed, Items};
use std::alloc::Global;

impl<F: Fn(Global, &mut Cursor<'_>, usize, Form) -> Result<Boxed<Expr>, ParseFault>> Operators<F> {
    fn one_form(&self, cursor: &mut Cursor<'_>, form: Form) -> Result<Boxed<Expr>, ParseFault>
        requires { Nests self.now.below.parts.depth (F.pre self.now.below.parts.nested) (F.post self.now.below.parts.nested) }
        ensures { Reads (spec.one_form self.now.below.parts.depth (parse self.now.below.parts.depth) form cursor.old) result cursor.new }
    {
        match form {
            Form::Level(least) => self.one_level(cursor, least),
            Form::Postfix => self.below.postfix(cursor),
            Form::Element => self.one_element(cursor),
        }
    }
}

/// An expression of a form, which nests no deeper than `depth`, from the tokens at the cursor; what follows it is left.
///
/// Each one is tested as soon as it is read, so that chains in chains never make a tree that is too high to let go of.
#[tactic(auto, using(crate::proofs::Kept::none_at))]
pub fn nested(
    alloc: Global,
    cursor: &mut Cursor<'_>,
    depth: usize,
    form: Form,
) -> Result<Boxed<Expr>, ParseFault>
    ensures { Reads (parse depth form cursor.old) result cursor.new }
{
    if depth == 0 {
        return Err(cursor.refuse());
    }
    let parts = Grammar {
        alloc,
        depth: depth - 1,
        nested,
    };
    let below = Chains { parts };
    let found = Operators { below }.one_form(cursor, form)?;
    if !expr_fits(found.get(), depth) {
        return Err(cursor.refuse());
    }
    Ok(found)
}

/// Paths behind `(`, which nest no deeper than `depth`, and the place of the `)` behind them.
pub fn nested_paths(
    alloc: Global,
    cursor: &mut Cursor<'_>,
    depth: usize,
    test: PathTest,
) -> Result<(Items<Expr>, At), ParseFault>
    ensures { Reads (lists.paths (parse depth) (passes test) cursor.old) result cursor.new }
{
    Grammar {
        alloc,
        depth,
        nested,
    }
    .paths(cursor, test)
}

/// A path behind `&`, which nests no deeper than `depth`.
pub fn nested_source(
    alloc: Global,
    cursor: &mut Cursor<'_>,
    depth: usize,
) -> Result<Boxed<Expr>, ParseFault>
    ensures { Reads (arrays.source (parse depth) cursor.old) result cursor.new }
{
    Grammar {
        alloc,
        depth,
        nested,
    }
    .source(cursor)
}

/// Elements and holes behind the bracket that opens, which nest no deeper than `depth`, up to the one that closes.
pub fn nested_elements(
    alloc: Global,
    cursor: &mut Cursor<'_>,
    depth: usize,
    closing: Mark,
) -> Result<Elements, ParseFault>
    ensures { Reads (arrays.elements (parse depth) closing cursor.old) result cursor.new }
{
    Grammar {
        alloc,
        depth,
        nested,
    }
    .elements(cursor, closing)
}
