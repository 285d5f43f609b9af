//! Parts of statements in which there are no statements: constants, initial values, and what is declared with them.

ghost use Rattle.hph_cursor.specs.Reads.{Reads};
ghost use Rattle.hph_fexpr.specs.declared.form.Form.TheVariants.{Level};
ghost use Rattle.hph_fstmt.specs.Declarations as declarations;
ghost use Rattle.hph_fstmt.specs.Parser as spec;
ghost use Rattle.hph_fstmt.specs.Statements as statements;

use crate::expressions::Expressions;
use crate::words::{expect_set, identifier_place, name, variable};
use hph_ast::{At, ConstantItem, Expr, Mark, PropertyItem, StaticVariable};
use hph_cursor::{Cursor, ParseFault, place};
use hph_nest::is_constant;
use sqlite_items::Boxed;
use std::alloc::Global;

/// The rules for what holds expressions and no statements.
#[derive(Clone, Copy)]
pub struct Parts<E> {
    pub alloc: Global,
    pub expressions: E,
}

impl<E: Expressions> Parts<E> {
    /// An expression with all its operators.
    pub fn expr(&self, cursor: &mut Cursor<'_>) -> Result<Boxed<Expr>, ParseFault>
        ensures { Reads (spec.expressions (Level 1) cursor.old) result cursor.new }
    {
        self.expressions.expression(self.alloc, cursor)
    }

    /// An expression in parentheses.
    #[tactic(auto, unfolding(hph_fstmt::specs::Statements::in_parentheses))]
    pub fn test(&self, cursor: &mut Cursor<'_>) -> Result<Boxed<Expr>, ParseFault>
        ensures { Reads (statements.in_parentheses spec.expressions cursor.old) result cursor.new }
    {
        cursor.expect(Mark::OpenParen)?;
        let found = self.expr(cursor)?;
        cursor.expect(Mark::CloseParen)?;
        Ok(found)
    }

    /// An expression that may be the value of a constant.
    #[tactic(auto, unfolding(hph_fstmt::specs::Declarations::constant))]
    fn constant(&self, cursor: &mut Cursor<'_>) -> Result<Boxed<Expr>, ParseFault>
        ensures { Reads (declarations.constant spec.expressions cursor.old) result cursor.new }
    {
        let found = self.expr(cursor)?;
        if is_constant(found.get()) {
            Ok(found)
        } else {
            Err(cursor.refuse())
        }
    }

    /// An initial value if there is one, and where it ends, or the place given.
    #[tactic(auto, unfolding(hph_fstmt::specs::Declarations::initial))]
    pub fn initial(
        &self,
        cursor: &mut Cursor<'_>,
        at: At,
    ) -> Result<(Option<Boxed<Expr>>, At), ParseFault>
        ensures { Reads (declarations.initial spec.expressions at cursor.old) result cursor.new }
    {
        if !cursor.sees_set() {
            return Ok((None, at));
        }
        cursor.take()?;
        let value = self.constant(cursor)?;
        let last = place(value.get());
        Ok((Some(value), last))
    }

    #[tactic(auto, unfolding(hph_fstmt::specs::Declarations::static_variable))]
    pub fn static_variable(&self, cursor: &mut Cursor<'_>) -> Result<StaticVariable, ParseFault>
        ensures { Reads (declarations.static_variable spec.expressions cursor.old) result cursor.new }
    {
        let name = variable(self.alloc, cursor)?;
        let (value, _) = self.initial(cursor, identifier_place(&name))?;
        Ok(StaticVariable { name, value })
    }

    #[tactic(auto, unfolding(hph_fstmt::specs::Declarations::property_item))]
    pub fn property_item(&self, cursor: &mut Cursor<'_>) -> Result<PropertyItem, ParseFault>
        ensures { Reads (declarations.property_item spec.expressions cursor.old) result cursor.new }
    {
        let name = variable(self.alloc, cursor)?;
        let (value, _) = self.initial(cursor, identifier_place(&name))?;
        Ok(PropertyItem { name, value })
    }

    #[tactic(auto, unfolding(hph_fstmt::specs::Declarations::constant_item))]
    pub fn constant_item(&self, cursor: &mut Cursor<'_>) -> Result<ConstantItem, ParseFault>
        ensures { Reads (declarations.constant_item spec.expressions cursor.old) result cursor.new }
    {
        let name = name(self.alloc, cursor)?;
        expect_set(cursor)?;
        let value = self.constant(cursor)?;
        Ok(ConstantItem { name, value })
    }
}
