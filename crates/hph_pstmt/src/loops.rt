//! Loops (PHP manual, while, do-while, for, foreach).

ghost use Rattle.std.specs.Prelude.{◌≡◌};
ghost use Rattle.hph_ast.specs.Places as places;
ghost use Rattle.hph_ast.specs.Statements as grammar;
ghost use Rattle.hph_ast.specs.declared.stmt.Statement.TheVariants as s;
ghost use Rattle.hph_cursor.specs.Reads.{Reads};
ghost use Rattle.hph_cursor.specs.Steps.{and_then, take_token};
ghost use Rattle.hph_fstmt.specs.Parser as spec;
ghost use Rattle.hph_fstmt.specs.Statements as statements;
ghost use Rattle.hph_declare.specs.Nests.{Nests};

use crate::control::Control;
use hph_ast::{Expr, ForeachTarget, Identifier, Keyword, Mark, Statement, Token};
use hph_cursor::{Cursor, ParseFault, on, span};
use hph_parts::Expressions;
use hph_parts::places::statement_place;
use hph_parts::words::expect_keyword;
use hph_simple::foreach::{foreach_key, foreach_target};
use sqlite_items::{Boxed, Items};
use std::alloc::Global;

fn while_of(token: &Token, test: Boxed<Expr>, body: Boxed<Statement>) -> Statement
    ensures { result ≡ s.While (places.span (places.on token.now) (grammar.statement_place body)) test body }
{
    let at = span(on(token), statement_place(body.get()));
    Statement::While { at, test, body }
}

/// The three lists of a `for`.
#[derive(Drop)]
pub struct ForHead {
    pub init: Items<Expr>,
    pub test: Items<Expr>,
    pub step: Items<Expr>,
}

fn for_of(token: &Token, head: ForHead, body: Boxed<Statement>) -> Statement
    ensures { result ≡ s.For (places.span (places.on token.now) (grammar.statement_place body)) head.init head.test head.step body }
{
    let at = span(on(token), statement_place(body.get()));
    let ForHead { init, test, step } = head;
    Statement::For {
        at,
        init,
        test,
        step,
        body,
    }
}

/// What a `foreach` goes over, and what a turn sets.
#[derive(Drop)]
pub struct ForeachHead {
    pub subject: Boxed<Expr>,
    pub key: Option<Identifier>,
    pub value: ForeachTarget,
}

fn foreach_of(token: &Token, head: ForeachHead, body: Boxed<Statement>) -> Statement
    ensures { result ≡ s.Foreach (places.span (places.on token.now) (grammar.statement_place body)) head.subject head.key head.value body }
{
    let at = span(on(token), statement_place(body.get()));
    let ForeachHead {
        subject,
        key,
        value,
    } = head;
    Statement::Foreach {
        at,
        subject,
        key,
        value,
        body,
    }
}

impl<
    E: Expressions + Copy,
    S: Fn(Global, E, &mut Cursor<'_>, usize) -> Result<Statement, ParseFault>,
> Control<E, S> {
    /// At `while`.
    #[tactic(auto, unfolding(hph_fstmt::specs::Statements::while_))]
    pub fn while_loop(&self, cursor: &mut Cursor<'_>) -> Result<Statement, ParseFault>
        requires { Nests self.now.grammar.depth (S.pre self.now.grammar.statement) (S.post self.now.grammar.statement) }
        ensures { Reads (and_then (take_token cursor.old) (statements.while_ spec.expressions (spec.nested self.now.grammar.depth))) result cursor.new }
    {
        let token = cursor.take()?;
        let test = self.grammar.parts.test(cursor)?;
        let body = self.grammar.nested(cursor)?;
        Ok(while_of(token, test, body))
    }

    /// At `do`.
    #[tactic(auto, unfolding(hph_fstmt::specs::Statements::do_while))]
    pub fn do_while_loop(&self, cursor: &mut Cursor<'_>) -> Result<Statement, ParseFault>
        requires { Nests self.now.grammar.depth (S.pre self.now.grammar.statement) (S.post self.now.grammar.statement) }
        ensures { Reads (and_then (take_token cursor.old) (statements.do_while spec.expressions (spec.nested self.now.grammar.depth))) result cursor.new }
    {
        let token = cursor.take()?;
        let body = self.grammar.nested(cursor)?;
        expect_keyword(cursor, Keyword::While)?;
        let test = self.grammar.parts.test(cursor)?;
        let close = cursor.expect(Mark::Semicolon)?;
        Ok(Statement::DoWhile {
            at: span(on(token), on(close)),
            body,
            test,
        })
    }

    #[tactic(auto, unfolding(hph_fstmt::specs::Statements::for_body))]
    fn for_body(
        &self,
        cursor: &mut Cursor<'_>,
        token: &Token,
        head: ForHead,
    ) -> Result<Statement, ParseFault>
        requires { Nests self.now.grammar.depth (S.pre self.now.grammar.statement) (S.post self.now.grammar.statement) }
        ensures { Reads (statements.for_body spec.expressions (spec.nested self.now.grammar.depth) token.now head.init head.test head.step cursor.old) result cursor.new }
    {
        let body = self.grammar.nested(cursor)?;
        Ok(for_of(token, head, body))
    }

    /// At `for`.
    #[tactic(auto, unfolding(hph_fstmt::specs::Statements::for_))]
    pub fn for_loop(&self, cursor: &mut Cursor<'_>) -> Result<Statement, ParseFault>
        requires { Nests self.now.grammar.depth (S.pre self.now.grammar.statement) (S.post self.now.grammar.statement) }
        ensures { Reads (and_then (take_token cursor.old) (statements.for_ spec.expressions (spec.nested self.now.grammar.depth))) result cursor.new }
    {
        let token = cursor.take()?;
        cursor.expect(Mark::OpenParen)?;
        let init = self.grammar.parts.maybe_exprs(cursor, Mark::Semicolon)?;
        let test = self.grammar.parts.maybe_exprs(cursor, Mark::Semicolon)?;
        let step = self.grammar.parts.maybe_exprs(cursor, Mark::CloseParen)?;
        self.for_body(cursor, token, ForHead { init, test, step })
    }

    #[tactic(auto, unfolding(hph_fstmt::specs::Statements::foreach_body))]
    fn foreach_body(
        &self,
        cursor: &mut Cursor<'_>,
        token: &Token,
        head: ForeachHead,
    ) -> Result<Statement, ParseFault>
        requires { Nests self.now.grammar.depth (S.pre self.now.grammar.statement) (S.post self.now.grammar.statement) }
        ensures { Reads (statements.foreach_body spec.expressions (spec.nested self.now.grammar.depth) token.now head.subject head.key head.value cursor.old) result cursor.new }
    {
        let body = self.grammar.nested(cursor)?;
        Ok(foreach_of(token, head, body))
    }

    /// Behind `as`.
    #[tactic(auto, unfolding(hph_fstmt::specs::Statements::foreach_as))]
    fn foreach_as(
        &self,
        cursor: &mut Cursor<'_>,
        token: &Token,
        subject: Boxed<Expr>,
    ) -> Result<Statement, ParseFault>
        requires { Nests self.now.grammar.depth (S.pre self.now.grammar.statement) (S.post self.now.grammar.statement) }
        ensures { Reads (statements.foreach_as spec.expressions (spec.nested self.now.grammar.depth) token.now subject cursor.old) result cursor.new }
    {
        let key = foreach_key(self.grammar.parts.alloc, cursor)?;
        let value = foreach_target(&self.grammar.parts, cursor)?;
        cursor.expect(Mark::CloseParen)?;
        self.foreach_body(
            cursor,
            token,
            ForeachHead {
                subject,
                key,
                value,
            },
        )
    }

    /// At `foreach`.
    #[tactic(auto, unfolding(hph_fstmt::specs::Statements::foreach))]
    pub fn foreach_loop(&self, cursor: &mut Cursor<'_>) -> Result<Statement, ParseFault>
        requires { Nests self.now.grammar.depth (S.pre self.now.grammar.statement) (S.post self.now.grammar.statement) }
        ensures { Reads (and_then (take_token cursor.old) (statements.foreach spec.expressions (spec.nested self.now.grammar.depth))) result cursor.new }
    {
        let token = cursor.take()?;
        cursor.expect(Mark::OpenParen)?;
        let subject = self.grammar.parts.expr(cursor)?;
        expect_keyword(cursor, Keyword::As)?;
        self.foreach_as(cursor, token, subject)
    }
}
