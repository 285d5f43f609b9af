//! Lists with commas between.

ghost use Rattle.hph_ast.specs.declared.token.Mark.TheVariants.{Semicolon};
ghost use Rattle.hph_cursor.specs.Reads.{Reads, ReadsAs};
ghost use Rattle.hph_fexpr.specs.declared.form.Form.TheVariants.{Level};
ghost use Rattle.hph_fstmt.specs.Declarations as declarations;
ghost use Rattle.hph_fstmt.specs.Parser as spec;
ghost use Rattle.hph_fstmt.specs.Repeats.{separated};
ghost use Rattle.hph_fstmt.specs.Statements as statements;
ghost use Rattle.hph_fstmt.specs.Words as words;

use crate::expressions::Expressions;
use crate::parts::Parts;
use crate::words::variable;
use hph_ast::{ConstantItem, Expr, Identifier, Mark, PropertyItem, StaticVariable, Token};
use hph_cursor::{Cursor, ParseFault};
use hph_repeats::{Rule, separated};
use sqlite_items::Items;
use std::alloc::Global;

/// The rule of a variable.
#[derive(Clone, Copy)]
struct VariableRule {
    alloc: Global,
}

impl Rule for VariableRule {
    type Node = Identifier;

    ghost can_read = { λ _. Unit {0} };

    ghost grammar = { λ _. words.variable };

    fn read(&self, cursor: &mut Cursor<'_>) -> Result<Identifier, ParseFault> {
        variable(self.alloc, cursor)
    }
}

/// Variables up to `;`, and the token that closes.
pub fn variables<'a>(
    alloc: Global,
    cursor: &mut Cursor<'a>,
) -> Result<(Items<Identifier>, &'a Token), ParseFault>
    ensures { ReadsAs (λ r. (r.0, r.1.now)) (separated words.variable Semicolon cursor.old) result cursor.new }
{
    separated(alloc, &VariableRule { alloc }, cursor, Mark::Semicolon)
}

/// The rule of an expression with all its operators.
#[derive(Drop)]
struct ExprRule<'a, E> {
    parts: &'a Parts<E>,
}

impl<E: Expressions> Rule for ExprRule<'_, E> {
    type Node = Expr;

    ghost can_read = { λ _. Unit {0} };

    ghost grammar = { λ _. spec.expressions (Level 1) };

    fn read(&self, cursor: &mut Cursor<'_>) -> Result<Expr, ParseFault> {
        let found = self.parts.expr(cursor)?;
        Ok(found.into_inner())
    }
}

/// The rule of a static variable.
#[derive(Drop)]
struct StaticVariableRule<'a, E> {
    parts: &'a Parts<E>,
}

impl<E: Expressions> Rule for StaticVariableRule<'_, E> {
    type Node = StaticVariable;

    ghost can_read = { λ _. Unit {0} };

    ghost grammar = { λ _. declarations.static_variable spec.expressions };

    fn read(&self, cursor: &mut Cursor<'_>) -> Result<StaticVariable, ParseFault> {
        self.parts.static_variable(cursor)
    }
}

/// The rule of a property.
#[derive(Drop)]
struct PropertyRule<'a, E> {
    parts: &'a Parts<E>,
}

impl<E: Expressions> Rule for PropertyRule<'_, E> {
    type Node = PropertyItem;

    ghost can_read = { λ _. Unit {0} };

    ghost grammar = { λ _. declarations.property_item spec.expressions };

    fn read(&self, cursor: &mut Cursor<'_>) -> Result<PropertyItem, ParseFault> {
        self.parts.property_item(cursor)
    }
}

/// The rule of a constant.
#[derive(Drop)]
struct ConstantRule<'a, E> {
    parts: &'a Parts<E>,
}

impl<E: Expressions> Rule for ConstantRule<'_, E> {
    type Node = ConstantItem;

    ghost can_read = { λ _. Unit {0} };

    ghost grammar = { λ _. declarations.constant_item spec.expressions };

    fn read(&self, cursor: &mut Cursor<'_>) -> Result<ConstantItem, ParseFault> {
        self.parts.constant_item(cursor)
    }
}

impl<E: Expressions> Parts<E> {
    /// Expressions with commas between up to a mark, and the token that closes.
    pub fn exprs<'a>(
        &self,
        cursor: &mut Cursor<'a>,
        closing: Mark,
    ) -> Result<(Items<Expr>, &'a Token), ParseFault>
        ensures { ReadsAs (λ r. (r.0, r.1.now)) (separated (spec.expressions (Level 1)) closing cursor.old) result cursor.new }
    {
        separated(self.alloc, &ExprRule { parts: self }, cursor, closing)
    }

    /// Static variables up to `;`, and the token that closes.
    pub fn static_variables<'a>(
        &self,
        cursor: &mut Cursor<'a>,
    ) -> Result<(Items<StaticVariable>, &'a Token), ParseFault>
        ensures { ReadsAs (λ r. (r.0, r.1.now)) (separated (declarations.static_variable spec.expressions) Semicolon cursor.old) result cursor.new }
    {
        let rule = StaticVariableRule { parts: self };
        separated(self.alloc, &rule, cursor, Mark::Semicolon)
    }

    /// Properties up to `;`, and the token that closes.
    pub fn property_items<'a>(
        &self,
        cursor: &mut Cursor<'a>,
    ) -> Result<(Items<PropertyItem>, &'a Token), ParseFault>
        ensures { ReadsAs (λ r. (r.0, r.1.now)) (separated (declarations.property_item spec.expressions) Semicolon cursor.old) result cursor.new }
    {
        let rule = PropertyRule { parts: self };
        separated(self.alloc, &rule, cursor, Mark::Semicolon)
    }

    /// Constants up to `;`, and the token that closes.
    pub fn constant_items<'a>(
        &self,
        cursor: &mut Cursor<'a>,
    ) -> Result<(Items<ConstantItem>, &'a Token), ParseFault>
        ensures { ReadsAs (λ r. (r.0, r.1.now)) (separated (declarations.constant_item spec.expressions) Semicolon cursor.old) result cursor.new }
    {
        let rule = ConstantRule { parts: self };
        separated(self.alloc, &rule, cursor, Mark::Semicolon)
    }

    /// Expressions, or none, up to a mark.
    #[tactic(auto, unfolding(hph_fstmt::specs::Statements::maybe_exprs))]
    pub fn maybe_exprs(
        &self,
        cursor: &mut Cursor<'_>,
        closing: Mark,
    ) -> Result<Items<Expr>, ParseFault>
        ensures { Reads (statements.maybe_exprs spec.expressions closing cursor.old) result cursor.new }
    {
        if cursor.sees(closing) {
            cursor.take()?;
            return Ok(Items::new(self.alloc));
        }
        let (found, _) = self.exprs(cursor, closing)?;
        Ok(found)
    }
}
