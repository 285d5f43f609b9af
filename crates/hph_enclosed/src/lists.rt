//! Lists in parentheses: arguments, and the paths of `isset`.

ghost use Rattle.hph_cursor.specs.Reads.{Reads, ReadsAs};
ghost use Rattle.hph_enclosed.specs.Nests.{Nests, passes};
ghost use Rattle.hph_fexpr.specs.Parser.{parse};
ghost use Rattle.hph_fexpr.specs.Lists as spec;

use crate::grammar::Grammar;
use crate::path_test::PathTest;
use hph_ast::{At, Expr, Mark};
use hph_cursor::nodes::named_argument_of;
use hph_cursor::{Cursor, ParseFault, is_read, on};
use hph_fexpr::Form;
use sqlite_items::{Boxed, Items};
use std::alloc::Global;

impl<F: Fn(Global, &mut Cursor<'_>, usize, Form) -> Result<Boxed<Expr>, ParseFault>> Grammar<F> {
    /// At NAME `:`.
    #[tactic(auto, unfolding(hph_fexpr::specs::Lists::named_argument))]
    fn named_argument(
        &self,
        cursor: &mut Cursor<'_>,
        name: &Items<u8>,
    ) -> Result<Boxed<Expr>, ParseFault>
        requires { Nests self.now.depth (F.pre self.now.nested) (F.post self.now.nested) }
        ensures { Reads (spec.named_argument (parse self.now.depth) name.now cursor.old) result cursor.new }
    {
        let name = Items::from_slice(self.alloc, name.as_slice())?;
        let first = cursor.take()?;
        cursor.take()?;
        let value = self.level(cursor, 1)?;
        Ok(named_argument_of(self.alloc, on(first), name, value)?)
    }

    #[tactic(auto, unfolding(hph_fexpr::specs::Lists::argument))]
    fn argument(&self, cursor: &mut Cursor<'_>) -> Result<Boxed<Expr>, ParseFault>
        requires { Nests self.now.depth (F.pre self.now.nested) (F.post self.now.nested) }
        ensures { Reads (spec.argument (parse self.now.depth) cursor.old) result cursor.new }
    {
        match cursor.argument_name() {
            Some(name) => self.named_argument(cursor, name),
            None => self.level(cursor, 1),
        }
    }

    /// Arguments behind `(`, and the place where they end.
    pub fn arguments(&self, cursor: &mut Cursor<'_>) -> Result<(Items<Expr>, At), ParseFault>
        requires { Nests self.now.depth (F.pre self.now.nested) (F.post self.now.nested) }
        ensures { Reads (spec.arguments (parse self.now.depth) cursor.old) result cursor.new }
    {
        let mut found = Items::new(self.alloc);
        for _turn in 0..cursor.left() {
            if cursor.sees(Mark::CloseParen) {
                let close = cursor.take()?;
                return Ok((found, on(close)));
            }
            found.push(self.argument(cursor)?.into_inner())?;
            if !cursor.sees(Mark::Comma) {
                let close = cursor.expect(Mark::CloseParen)?;
                return Ok((found, on(close)));
            }
            cursor.take()?;
        }
        Err(cursor.refuse())
    }

    /// Arguments or nothing, and the place where they end.
    #[tactic(auto, unfolding(hph_fexpr::specs::Lists::maybe_arguments))]
    pub fn maybe_arguments(
        &self,
        cursor: &mut Cursor<'_>,
        at: At,
    ) -> Result<(Items<Expr>, At), ParseFault>
        requires { Nests self.now.depth (F.pre self.now.nested) (F.post self.now.nested) }
        ensures { Reads (spec.maybe_arguments (parse self.now.depth) at cursor.old) result cursor.new }
    {
        if !cursor.sees(Mark::OpenParen) {
            return Ok((Items::new(self.alloc), at));
        }
        cursor.take()?;
        self.arguments(cursor)
    }

    #[tactic(auto, unfolding(hph_fexpr::specs::Lists::tested_path))]
    fn tested_path(
        &self,
        cursor: &mut Cursor<'_>,
        test: PathTest,
    ) -> Result<Boxed<Expr>, ParseFault>
        requires { Nests self.now.depth (F.pre self.now.nested) (F.post self.now.nested) }
        ensures { Reads (spec.tested_path (parse self.now.depth) (passes test) cursor.old) result cursor.new }
    {
        let path = self.path(cursor)?;
        if is_read(path.get()) && test.passes(path.get()) {
            Ok(path)
        } else {
            Err(cursor.refuse())
        }
    }

    /// Paths behind `(`, and the place where they end.
    pub fn paths(
        &self,
        cursor: &mut Cursor<'_>,
        test: PathTest,
    ) -> Result<(Items<Expr>, At), ParseFault>
        requires { Nests self.now.depth (F.pre self.now.nested) (F.post self.now.nested) }
        ensures { Reads (spec.paths (parse self.now.depth) (passes test) cursor.old) result cursor.new }
    {
        let mut found = Items::new(self.alloc);
        for _turn in 0..cursor.left() {
            found.push(self.tested_path(cursor, test)?.into_inner())?;
            if !cursor.sees(Mark::Comma) {
                let close = cursor.expect(Mark::CloseParen)?;
                return Ok((found, on(close)));
            }
            cursor.take()?;
            if cursor.sees(Mark::CloseParen) {
                let close = cursor.take()?;
                return Ok((found, on(close)));
            }
        }
        Err(cursor.refuse())
    }
}
