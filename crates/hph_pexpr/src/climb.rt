//! Binary operators, level by level: PHP manual, Operator Precedence.

ghost use Rattle.hph_cursor.specs.Reads.{Reads, ReadsAs};
ghost use Rattle.hph_enclosed.specs.Nests.{Nests, passes};
ghost use Rattle.hph_fexpr.specs.Parser.{parse};
ghost use Rattle.std.specs.Prelude.{◌<◌, [], length};
ghost use Rattle.hph_ast.specs.Levels as levels;
ghost use Rattle.hph_fexpr.specs.Climb as spec;

use crate::operators::Operators;
use hph_ast::{Binary, ClassReference, Expr, Grouping, Mark};
use hph_cursor::nodes::{instance_of_of, pair_of, run_of};
use hph_cursor::{Cursor, ParseFault, grouping};
use hph_fexpr::Form;
use sqlite_items::{Boxed, Items};
use std::alloc::Global;

/// All levels are below this one.
const TOP: u8 = 23;

impl<F: Fn(Global, &mut Cursor<'_>, usize, Form) -> Result<Boxed<Expr>, ParseFault>> Operators<F> {
    /// The operators of a level and the operands behind them.
    fn operands(
        &self,
        cursor: &mut Cursor<'_>,
        level: u8,
    ) -> Result<Items<(Binary, Expr)>, ParseFault>
        requires nests { Nests self.now.below.parts.depth (F.pre self.now.below.parts.nested) (F.post self.now.below.parts.nested) }
        requires small { level < 23 }
        ensures { Reads (spec.operands_from (parse self.now.below.parts.depth) level (length cursor.old) [] cursor.old) result cursor.new }
    {
        let mut found = Items::new(self.below.parts.alloc);
        for _turn in 0..cursor.left() {
            let Some(operator) = cursor.operator(level) else {
                return Ok(found);
            };
            cursor.take()?;
            let operand = self.below.parts.level(cursor, level + 1)?;
            found.push((operator, operand.into_inner()))?;
        }
        Ok(found)
    }

    #[tactic(auto, unfolding(hph_fexpr::specs::Climb::run))]
    fn run(
        &self,
        cursor: &mut Cursor<'_>,
        level: u8,
        first: Boxed<Expr>,
    ) -> Result<Boxed<Expr>, ParseFault>
        requires nests { Nests self.now.below.parts.depth (F.pre self.now.below.parts.nested) (F.post self.now.below.parts.nested) }
        requires small { level < 23 }
        ensures { Reads (spec.run (parse self.now.below.parts.depth) level first cursor.old) result cursor.new }
    {
        let found = self.operands(cursor, level)?;
        Ok(run_of(self.below.parts.alloc, first, found)?)
    }

    #[tactic(auto, unfolding(hph_fexpr::specs::Climb::pair))]
    fn pair(
        &self,
        cursor: &mut Cursor<'_>,
        left: Boxed<Expr>,
        operator: Binary,
        level: u8,
    ) -> Result<Boxed<Expr>, ParseFault>
        requires { Nests self.now.below.parts.depth (F.pre self.now.below.parts.nested) (F.post self.now.below.parts.nested) }
        ensures { Reads (spec.pair (parse self.now.below.parts.depth) left operator level cursor.old) result cursor.new }
    {
        cursor.take()?;
        let right = self.below.parts.level(cursor, level)?;
        Ok(pair_of(self.below.parts.alloc, operator, left, right)?)
    }

    fn classes(&self, cursor: &mut Cursor<'_>) -> Result<Items<ClassReference>, ParseFault>
        requires { Nests self.now.below.parts.depth (F.pre self.now.below.parts.nested) (F.post self.now.below.parts.nested) }
        ensures { Reads (spec.classes_from (parse self.now.below.parts.depth) (length cursor.old) [] cursor.old) result cursor.new }
    {
        let mut found = Items::new(self.below.parts.alloc);
        for _turn in 0..cursor.left() {
            if !cursor.sees_instance_of() {
                return Ok(found);
            }
            cursor.take()?;
            found.push(self.below.parts.class_reference(cursor)?.into_inner())?;
        }
        Ok(found)
    }

    /// At `instanceof`.
    #[tactic(auto, unfolding(hph_fexpr::specs::Climb::instances))]
    fn instances(
        &self,
        cursor: &mut Cursor<'_>,
        subject: Boxed<Expr>,
    ) -> Result<Boxed<Expr>, ParseFault>
        requires { Nests self.now.below.parts.depth (F.pre self.now.below.parts.nested) (F.post self.now.below.parts.nested) }
        ensures { Reads (spec.instances (parse self.now.below.parts.depth) subject cursor.old) result cursor.new }
    {
        let found = self.classes(cursor)?;
        Ok(instance_of_of(self.below.parts.alloc, subject, found)?)
    }

    /// An expression goes on with operators of a level.
    #[tactic(auto, unfolding(hph_fexpr::specs::Climb::longer))]
    fn longer(
        &self,
        cursor: &mut Cursor<'_>,
        level: u8,
        left: Boxed<Expr>,
    ) -> Result<Boxed<Expr>, ParseFault>
        requires nests { Nests self.now.below.parts.depth (F.pre self.now.below.parts.nested) (F.post self.now.below.parts.nested) }
        requires small { level < 23 }
        ensures { Reads (spec.longer (parse self.now.below.parts.depth) level left cursor.old) result cursor.new }
    {
        let Some(operator) = cursor.binary() else {
            if cursor.sees(Mark::Question) {
                return self.questioned(cursor, left);
            }
            if cursor.sees_instance_of() {
                return self.instances(cursor, left);
            }
            return Err(cursor.refuse());
        };
        match grouping(operator) {
            Grouping::Left => self.run(cursor, level, left),
            Grouping::Right => self.pair(cursor, left, operator, level),
            Grouping::Alone => self.pair(cursor, left, operator, level + 1),
        }
    }

    /// The levels from the tightest down to one.
    fn climb(
        &self,
        cursor: &mut Cursor<'_>,
        least: u8,
        mut found: Boxed<Expr>,
    ) -> Result<Boxed<Expr>, ParseFault>
        requires { Nests self.now.below.parts.depth (F.pre self.now.below.parts.nested) (F.post self.now.below.parts.nested) }
        ensures { Reads (spec.climb (parse self.now.below.parts.depth) least levels.top found cursor.old) result cursor.new }
    {
        let mut level = TOP;
        let mut binds = cursor.binds();
        while level > least {
            level -= 1;
            if binds == level {
                found = self.longer(cursor, level, found)?;
                binds = cursor.binds();
            }
        }
        if binds < least {
            Ok(found)
        } else {
            Err(cursor.refuse())
        }
    }

    #[tactic(auto, unfolding(hph_fexpr::specs::Climb::climbed))]
    fn climbed(
        &self,
        cursor: &mut Cursor<'_>,
        least: u8,
        alone: bool,
    ) -> Result<Boxed<Expr>, ParseFault>
        requires { Nests self.now.below.parts.depth (F.pre self.now.below.parts.nested) (F.post self.now.below.parts.nested) }
        ensures { Reads (spec.climbed (parse self.now.below.parts.depth) alone self.now.below.parts.depth least cursor.old) result cursor.new }
    {
        let found = self.term(cursor, alone)?;
        self.climb(cursor, least, found)
    }

    /// An expression of a level, whose parts nest one deeper.
    #[tactic(auto, unfolding(hph_fexpr::specs::Climb::one_level))]
    pub fn one_level(&self, cursor: &mut Cursor<'_>, least: u8) -> Result<Boxed<Expr>, ParseFault>
        requires { Nests self.now.below.parts.depth (F.pre self.now.below.parts.nested) (F.post self.now.below.parts.nested) }
        ensures { Reads (spec.one_level (parse self.now.below.parts.depth) self.now.below.parts.depth least cursor.old) result cursor.new }
    {
        self.climbed(cursor, least, false)
    }

    /// An expression, or what is only written, whose parts nest one deeper.
    #[tactic(auto, unfolding(hph_fexpr::specs::Climb::one_element))]
    pub fn one_element(&self, cursor: &mut Cursor<'_>) -> Result<Boxed<Expr>, ParseFault>
        requires { Nests self.now.below.parts.depth (F.pre self.now.below.parts.nested) (F.post self.now.below.parts.nested) }
        ensures { Reads (spec.one_element (parse self.now.below.parts.depth) self.now.below.parts.depth cursor.old) result cursor.new }
    {
        self.climbed(cursor, 1, true)
    }
}
