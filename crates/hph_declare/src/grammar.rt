//! The rules for statements, with what reads the statements in them as a parameter, so that each is proved by itself.

ghost use Rattle.hph_cursor.specs.Reads.{Reads, ReadsAs};
ghost use Rattle.hph_cursor.specs.Steps.{and_then, take_token};
ghost use Rattle.hph_declare.specs.Braces.{braced, closed};
ghost use Rattle.hph_declare.specs.Nests.{Nests};
ghost use Rattle.hph_fstmt.specs.Parser as spec;
ghost use Rattle.hph_fstmt.specs.Statements as statements;

use hph_ast::{Mark, Statement, Token};
use hph_cursor::{Cursor, ParseFault, on, span};
use hph_parts::boxes::boxed;
use hph_parts::ends::ends_statements;
use hph_parts::{Expressions, Parts};
use hph_repeats::{Ends, Rule, many};
use sqlite_items::{Boxed, Items};
use std::alloc::Global;

/// The rules of the grammar.
#[derive(Clone, Copy)]
pub struct Grammar<E, S> {
    pub parts: Parts<E>,
    /// How deep the statements in a statement may still nest.
    pub depth: usize,
    pub statement: S,
}

/// The rule of a statement in a statement.
#[derive(Drop)]
struct NestedRule<'a, E, S> {
    grammar: &'a Grammar<E, S>,
}

impl<
    E: Expressions + Copy,
    S: Fn(Global, E, &mut Cursor<'_>, usize) -> Result<Statement, ParseFault>,
> Rule for NestedRule<'_, E, S> {
    ghost use Rattle.hph_declare.specs.Nests.{Nests};
    ghost use Rattle.hph_fstmt.specs.Parser as spec;

    type Node = Statement;

    ghost can_read = { λ r. Nests r.grammar.now.depth (S.pre r.grammar.now.statement) (S.post r.grammar.now.statement) };

    ghost grammar = { λ r. spec.nested r.grammar.now.depth };

    fn read(&self, cursor: &mut Cursor<'_>) -> Result<Statement, ParseFault> {
        let grammar = self.grammar;
        (grammar.statement)(
            grammar.parts.alloc,
            grammar.parts.expressions,
            cursor,
            grammar.depth,
        )
    }
}

impl<
    E: Expressions + Copy,
    S: Fn(Global, E, &mut Cursor<'_>, usize) -> Result<Statement, ParseFault>,
> Ends for NestedRule<'_, E, S> {
    ghost use Rattle.hph_fstmt.specs.Statements as statements;

    ghost ends = { statements.ends_statements };

    fn at_end(&self, cursor: &Cursor<'_>) -> bool {
        ends_statements(cursor)
    }
}

impl<
    E: Expressions + Copy,
    S: Fn(Global, E, &mut Cursor<'_>, usize) -> Result<Statement, ParseFault>,
> Grammar<E, S> {
    /// A statement in a statement.
    pub fn nested(&self, cursor: &mut Cursor<'_>) -> Result<Boxed<Statement>, ParseFault>
        requires { Nests self.now.depth (S.pre self.now.statement) (S.post self.now.statement) }
        ensures { Reads (spec.nested self.now.depth cursor.old) result cursor.new }
    {
        let statement = NestedRule { grammar: self }.read(cursor)?;
        boxed(self.parts.alloc, statement)
    }

    /// Statements up to a `}`, a `case` or a `default`.
    pub fn statements(&self, cursor: &mut Cursor<'_>) -> Result<Items<Statement>, ParseFault>
        requires { Nests self.now.depth (S.pre self.now.statement) (S.post self.now.statement) }
        ensures { Reads (statements.statements spec.expressions (spec.nested self.now.depth) cursor.old) result cursor.new }
    {
        many(self.parts.alloc, &NestedRule { grammar: self }, cursor)
    }

    /// Statements and the `}` behind them.
    fn closed_statements<'a>(
        &self,
        cursor: &mut Cursor<'a>,
    ) -> Result<(Items<Statement>, &'a Token), ParseFault>
        requires { Nests self.now.depth (S.pre self.now.statement) (S.post self.now.statement) }
        ensures { ReadsAs (λ r. (r.0, r.1.now)) (closed (statements.statements spec.expressions (spec.nested self.now.depth)) cursor.old) result cursor.new }
    {
        let body = self.statements(cursor)?;
        let close = cursor.expect(Mark::CloseBrace)?;
        Ok((body, close))
    }

    /// Statements in braces, and the token that closes.
    pub fn braced_statements<'a>(
        &self,
        cursor: &mut Cursor<'a>,
    ) -> Result<(Items<Statement>, &'a Token), ParseFault>
        requires { Nests self.now.depth (S.pre self.now.statement) (S.post self.now.statement) }
        ensures { ReadsAs (λ r. (r.0, r.1.now)) (braced (statements.statements spec.expressions (spec.nested self.now.depth)) cursor.old) result cursor.new }
    {
        cursor.expect(Mark::OpenBrace)?;
        self.closed_statements(cursor)
    }

    /// At `{`.
    #[tactic(auto, unfolding(hph_fstmt::specs::Statements::block))]
    pub fn block(&self, cursor: &mut Cursor<'_>) -> Result<Statement, ParseFault>
        requires { Nests self.now.depth (S.pre self.now.statement) (S.post self.now.statement) }
        ensures { Reads (and_then (take_token cursor.old) (statements.block spec.expressions (spec.nested self.now.depth))) result cursor.new }
    {
        let token = cursor.take()?;
        let body = self.statements(cursor)?;
        let close = cursor.expect(Mark::CloseBrace)?;
        Ok(Statement::Block {
            at: span(on(token), on(close)),
            body,
        })
    }
}
