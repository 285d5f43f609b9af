//! `switch` (PHP manual, switch).

ghost use Rattle.hph_ast.specs.declared.token.Mark.TheVariants.{CloseBrace};
ghost use Rattle.hph_cursor.specs.Reads.{Reads, ReadsAs};
ghost use Rattle.hph_cursor.specs.Steps as steps;
ghost use Rattle.hph_cursor.specs.Steps.{and_then, take_token};
ghost use Rattle.hph_fstmt.specs.Parser as spec;
ghost use Rattle.hph_fstmt.specs.Repeats as repeats;
ghost use Rattle.hph_fstmt.specs.Statements as statements;
ghost use Rattle.hph_declare.specs.Braces.{braced, closed};
ghost use Rattle.hph_declare.specs.Nests.{Nests};

use crate::control::Control;
use hph_ast::{At, Case, Expr, Mark, Statement, Token};
use hph_cursor::{Cursor, ParseFault, on, span};
use hph_parts::Expressions;
use hph_parts::ends::ends_braces;
use hph_parts::places::last_statement;
use hph_parts::words::here;
use hph_repeats::{Ends, Rule, many};
use hph_simple::cases::{label, switch_of};
use sqlite_items::{Boxed, Items};
use std::alloc::Global;

/// The rule of a label with its statements.
#[derive(Drop)]
struct CaseRule<'a, E, S> {
    control: &'a Control<E, S>,
}

impl<
    E: Expressions + Copy,
    S: Fn(Global, E, &mut Cursor<'_>, usize) -> Result<Statement, ParseFault>,
> Rule for CaseRule<'_, E, S> {
    ghost use Rattle.hph_declare.specs.Nests.{Nests};
    ghost use Rattle.hph_fstmt.specs.Parser as spec;
    ghost use Rattle.hph_fstmt.specs.Statements as statements;

    type Node = Case;

    ghost can_read = { λ r. Nests r.control.now.grammar.depth (S.pre r.control.now.grammar.statement) (S.post r.control.now.grammar.statement) };

    ghost grammar = { λ r. statements.case spec.expressions (spec.nested r.control.now.grammar.depth) };

    fn read(&self, cursor: &mut Cursor<'_>) -> Result<Case, ParseFault> {
        self.control.case(cursor)
    }
}

impl<
    E: Expressions + Copy,
    S: Fn(Global, E, &mut Cursor<'_>, usize) -> Result<Statement, ParseFault>,
> Ends for CaseRule<'_, E, S> {
    ghost use Rattle.hph_ast.specs.declared.token.Mark.TheVariants.{CloseBrace};
    ghost use Rattle.hph_cursor.specs.Steps as steps;

    ghost ends = { steps.is_mark CloseBrace };

    fn at_end(&self, cursor: &Cursor<'_>) -> bool {
        ends_braces(cursor)
    }
}

impl<
    E: Expressions + Copy,
    S: Fn(Global, E, &mut Cursor<'_>, usize) -> Result<Statement, ParseFault>,
> Control<E, S> {
    #[tactic(auto, unfolding(hph_fstmt::specs::Statements::case_from))]
    fn case_from(&self, cursor: &mut Cursor<'_>, at: At) -> Result<Case, ParseFault>
        requires { Nests self.now.grammar.depth (S.pre self.now.grammar.statement) (S.post self.now.grammar.statement) }
        ensures { Reads (statements.case_from spec.expressions (spec.nested self.now.grammar.depth) at cursor.old) result cursor.new }
    {
        let (test, close) = label(&self.grammar.parts, cursor)?;
        let body = self.grammar.statements(cursor)?;
        Ok(Case {
            at: span(at, last_statement(on(close), body.as_slice())),
            test,
            body,
        })
    }

    #[tactic(auto, unfolding(hph_fstmt::specs::Statements::case))]
    fn case(&self, cursor: &mut Cursor<'_>) -> Result<Case, ParseFault>
        requires { Nests self.now.grammar.depth (S.pre self.now.grammar.statement) (S.post self.now.grammar.statement) }
        ensures { Reads (statements.case spec.expressions (spec.nested self.now.grammar.depth) cursor.old) result cursor.new }
    {
        let at = here(cursor)?;
        self.case_from(cursor, at)
    }

    /// Cases and the `}` behind them.
    fn closed_cases<'a>(
        &self,
        cursor: &mut Cursor<'a>,
    ) -> Result<(Items<Case>, &'a Token), ParseFault>
        requires { Nests self.now.grammar.depth (S.pre self.now.grammar.statement) (S.post self.now.grammar.statement) }
        ensures { ReadsAs (λ r. (r.0, r.1.now)) (closed (repeats.many (steps.is_mark CloseBrace) (statements.case spec.expressions (spec.nested self.now.grammar.depth))) cursor.old) result cursor.new }
    {
        let alloc = self.grammar.parts.alloc;
        let cases = many(alloc, &CaseRule { control: self }, cursor)?;
        let close = cursor.expect(Mark::CloseBrace)?;
        Ok((cases, close))
    }

    /// Cases in braces, and the token that closes.
    fn braced_cases<'a>(
        &self,
        cursor: &mut Cursor<'a>,
    ) -> Result<(Items<Case>, &'a Token), ParseFault>
        requires { Nests self.now.grammar.depth (S.pre self.now.grammar.statement) (S.post self.now.grammar.statement) }
        ensures { ReadsAs (λ r. (r.0, r.1.now)) (braced (repeats.many (steps.is_mark CloseBrace) (statements.case spec.expressions (spec.nested self.now.grammar.depth))) cursor.old) result cursor.new }
    {
        cursor.expect(Mark::OpenBrace)?;
        self.closed_cases(cursor)
    }

    /// Behind the subject.
    #[tactic(auto, using(crate::proofs::Switches::switched))]
    fn switch_cases(
        &self,
        cursor: &mut Cursor<'_>,
        token: &Token,
        subject: Boxed<Expr>,
    ) -> Result<Statement, ParseFault>
        requires { Nests self.now.grammar.depth (S.pre self.now.grammar.statement) (S.post self.now.grammar.statement) }
        ensures { Reads (statements.switch_cases spec.expressions (spec.nested self.now.grammar.depth) token.now subject cursor.old) result cursor.new }
    {
        let (cases, close) = self.braced_cases(cursor)?;
        let at = span(on(token), on(close));
        switch_of(cursor, at, subject, cases)
    }

    /// At `switch`, with at most one `default`.
    #[tactic(auto, unfolding(hph_fstmt::specs::Statements::switch))]
    pub fn switch_statement(&self, cursor: &mut Cursor<'_>) -> Result<Statement, ParseFault>
        requires { Nests self.now.grammar.depth (S.pre self.now.grammar.statement) (S.post self.now.grammar.statement) }
        ensures { Reads (and_then (take_token cursor.old) (statements.switch spec.expressions (spec.nested self.now.grammar.depth))) result cursor.new }
    {
        let token = cursor.take()?;
        let subject = self.grammar.parts.test(cursor)?;
        self.switch_cases(cursor, token, subject)
    }
}
