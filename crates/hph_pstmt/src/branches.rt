//! Branches (PHP manual, if, else, elseif).

ghost use Rattle.std.specs.Prelude.{◌≡◌};
ghost use Rattle.hph_ast.specs.Places as places;
ghost use Rattle.hph_ast.specs.Statements as grammar;
ghost use Rattle.hph_ast.specs.declared.stmt.Statement.TheVariants as s;
ghost use Rattle.hph_cursor.specs.Reads.{Reads};
ghost use Rattle.hph_cursor.specs.Steps.{and_then, take_token};
ghost use Rattle.hph_fstmt.specs.Parser as spec;
ghost use Rattle.hph_fstmt.specs.Repeats as repeats;
ghost use Rattle.hph_fstmt.specs.Statements as statements;
ghost use Rattle.hph_declare.specs.Nests.{Nests};

use crate::control::Control;
use hph_ast::{ElseIf, Expr, Keyword, Statement, Token};
use hph_cursor::{Cursor, ParseFault, on, span};
use hph_parts::Expressions;
use hph_parts::ends::ends_branches;
use hph_parts::places::{last_part, statement_place};
use hph_parts::words::sees_keyword;
use hph_repeats::{Ends, Rule, many};
use sqlite_items::{Boxed, Items};
use std::alloc::Global;

/// The first branch of an `if`.
#[derive(Drop)]
pub struct FirstBranch {
    pub test: Boxed<Expr>,
    pub body: Boxed<Statement>,
}

fn if_of(
    token: &Token,
    first: FirstBranch,
    more: Items<ElseIf>,
    other: Option<Boxed<Statement>>,
) -> Statement
    ensures { result ≡ s.If (places.span (places.on token.now) (grammar.last_part (grammar.statement_place first.body) more other)) first.test first.body more other }
{
    let last = last_part(statement_place(first.body.get()), more.as_slice(), &other);
    let FirstBranch { test, body } = first;
    Statement::If {
        at: span(on(token), last),
        test,
        body,
        more,
        other,
    }
}

/// The rule of an `elseif` with its branch.
#[derive(Drop)]
struct ElseIfRule<'a, E, S> {
    control: &'a Control<E, S>,
}

impl<
    E: Expressions + Copy,
    S: Fn(Global, E, &mut Cursor<'_>, usize) -> Result<Statement, ParseFault>,
> Rule for ElseIfRule<'_, E, S> {
    ghost use Rattle.hph_declare.specs.Nests.{Nests};
    ghost use Rattle.hph_fstmt.specs.Parser as spec;
    ghost use Rattle.hph_fstmt.specs.Statements as statements;

    type Node = ElseIf;

    ghost can_read = { λ r. Nests r.control.now.grammar.depth (S.pre r.control.now.grammar.statement) (S.post r.control.now.grammar.statement) };

    ghost grammar = { λ r. statements.else_if spec.expressions (spec.nested r.control.now.grammar.depth) };

    fn read(&self, cursor: &mut Cursor<'_>) -> Result<ElseIf, ParseFault> {
        self.control.else_if(cursor)
    }
}

impl<
    E: Expressions + Copy,
    S: Fn(Global, E, &mut Cursor<'_>, usize) -> Result<Statement, ParseFault>,
> Ends for ElseIfRule<'_, E, S> {
    ghost use Rattle.hph_fstmt.specs.Statements as statements;

    ghost ends = { statements.ends_branches };

    fn at_end(&self, cursor: &Cursor<'_>) -> bool {
        ends_branches(cursor)
    }
}

impl<
    E: Expressions + Copy,
    S: Fn(Global, E, &mut Cursor<'_>, usize) -> Result<Statement, ParseFault>,
> Control<E, S> {
    /// At `elseif`.
    #[tactic(auto, unfolding(hph_fstmt::specs::Statements::else_if))]
    fn else_if(&self, cursor: &mut Cursor<'_>) -> Result<ElseIf, ParseFault>
        requires { Nests self.now.grammar.depth (S.pre self.now.grammar.statement) (S.post self.now.grammar.statement) }
        ensures { Reads (statements.else_if spec.expressions (spec.nested self.now.grammar.depth) cursor.old) result cursor.new }
    {
        cursor.take()?;
        let test = self.grammar.parts.test(cursor)?;
        let body = self.grammar.nested(cursor)?;
        Ok(ElseIf { test, body })
    }

    fn else_ifs(&self, cursor: &mut Cursor<'_>) -> Result<Items<ElseIf>, ParseFault>
        requires { Nests self.now.grammar.depth (S.pre self.now.grammar.statement) (S.post self.now.grammar.statement) }
        ensures { Reads (repeats.many statements.ends_branches (statements.else_if spec.expressions (spec.nested self.now.grammar.depth)) cursor.old) result cursor.new }
    {
        let alloc = self.grammar.parts.alloc;
        many(alloc, &ElseIfRule { control: self }, cursor)
    }

    /// The `else` and its branch, if it is next.
    #[tactic(auto, unfolding(hph_fstmt::specs::Statements::otherwise))]
    fn otherwise(&self, cursor: &mut Cursor<'_>) -> Result<Option<Boxed<Statement>>, ParseFault>
        requires { Nests self.now.grammar.depth (S.pre self.now.grammar.statement) (S.post self.now.grammar.statement) }
        ensures { Reads (statements.otherwise spec.expressions (spec.nested self.now.grammar.depth) cursor.old) result cursor.new }
    {
        if !sees_keyword(cursor, Keyword::Else) {
            return Ok(None);
        }
        cursor.take()?;
        let body = self.grammar.nested(cursor)?;
        Ok(Some(body))
    }

    /// Behind all `elseif`.
    #[tactic(auto, unfolding(hph_fstmt::specs::Statements::last_branch))]
    fn last_branch(
        &self,
        cursor: &mut Cursor<'_>,
        token: &Token,
        first: FirstBranch,
        more: Items<ElseIf>,
    ) -> Result<Statement, ParseFault>
        requires { Nests self.now.grammar.depth (S.pre self.now.grammar.statement) (S.post self.now.grammar.statement) }
        ensures { Reads (statements.last_branch spec.expressions (spec.nested self.now.grammar.depth) token.now first.test first.body more cursor.old) result cursor.new }
    {
        let other = self.otherwise(cursor)?;
        Ok(if_of(token, first, more, other))
    }

    /// Behind the first branch.
    #[tactic(auto, unfolding(hph_fstmt::specs::Statements::branches))]
    fn branches(
        &self,
        cursor: &mut Cursor<'_>,
        token: &Token,
        first: FirstBranch,
    ) -> Result<Statement, ParseFault>
        requires { Nests self.now.grammar.depth (S.pre self.now.grammar.statement) (S.post self.now.grammar.statement) }
        ensures { Reads (statements.branches spec.expressions (spec.nested self.now.grammar.depth) token.now first.test first.body cursor.old) result cursor.new }
    {
        let more = self.else_ifs(cursor)?;
        self.last_branch(cursor, token, first, more)
    }

    /// At `if`. Each `elseif` and each `else` belongs to the nearest `if`.
    #[tactic(auto, unfolding(hph_fstmt::specs::Statements::if_))]
    pub fn if_statement(&self, cursor: &mut Cursor<'_>) -> Result<Statement, ParseFault>
        requires { Nests self.now.grammar.depth (S.pre self.now.grammar.statement) (S.post self.now.grammar.statement) }
        ensures { Reads (and_then (take_token cursor.old) (statements.if_ spec.expressions (spec.nested self.now.grammar.depth))) result cursor.new }
    {
        let token = cursor.take()?;
        let test = self.grammar.parts.test(cursor)?;
        let body = self.grammar.nested(cursor)?;
        self.branches(cursor, token, FirstBranch { test, body })
    }
}
