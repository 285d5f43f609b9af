//! Statements (PHP manual, Control Structures).

ghost use Rattle.std.specs.Prelude.{false, true};
ghost use Rattle.hph_ast.specs.declared.keyword.Keyword.TheVariants as w;
ghost use Rattle.hph_cursor.specs.Reads.{Reads};
ghost use Rattle.hph_fstmt.specs.Parser as spec;
ghost use Rattle.hph_fstmt.specs.Statements as statements;
ghost use Rattle.hph_declare.specs.Nests.{Nests};

use crate::control::Control;
use hph_ast::{Keyword, Kind, Mark, Statement};
use hph_cursor::{Cursor, ParseFault};
use hph_declare::Grammar;
use hph_parts::{Expressions, Parts};
use hph_simple::simple::{
    break_statement, const_statement, continue_statement, echo, empty, expression,
    global_statement, inline_text, return_statement, static_or_expression, unset,
};
use std::alloc::Global;

impl<
    E: Expressions + Copy,
    S: Fn(Global, E, &mut Cursor<'_>, usize) -> Result<Statement, ParseFault>,
> Control<E, S> {
    /// At `function`.
    fn function_statement(&self, cursor: &mut Cursor<'_>) -> Result<Statement, ParseFault>
        requires { Nests self.now.grammar.depth (S.pre self.now.grammar.statement) (S.post self.now.grammar.statement) }
        ensures { Reads (statements.keyword_by spec.expressions (spec.nested self.now.grammar.depth) false w.Function cursor.old) result cursor.new }
    {
        let function = self.grammar.function(cursor)?;
        Ok(Statement::Function { function })
    }

    /// At `class`.
    fn class_statement(&self, cursor: &mut Cursor<'_>) -> Result<Statement, ParseFault>
        requires { Nests self.now.grammar.depth (S.pre self.now.grammar.statement) (S.post self.now.grammar.statement) }
        ensures { Reads (statements.keyword_by spec.expressions (spec.nested self.now.grammar.depth) false w.Class cursor.old) result cursor.new }
    {
        let class = self.grammar.class(cursor)?;
        Ok(Statement::Class { class })
    }

    /// At a keyword; `const` stands directly in a file.
    fn by_keyword(
        &self,
        cursor: &mut Cursor<'_>,
        word: Keyword,
        top: bool,
    ) -> Result<Statement, ParseFault>
        requires { Nests self.now.grammar.depth (S.pre self.now.grammar.statement) (S.post self.now.grammar.statement) }
        ensures { Reads (statements.keyword_by spec.expressions (spec.nested self.now.grammar.depth) top word cursor.old) result cursor.new }
    {
        match word {
            Keyword::If => self.if_statement(cursor),
            Keyword::While => self.while_loop(cursor),
            Keyword::Do => self.do_while_loop(cursor),
            Keyword::For => self.for_loop(cursor),
            Keyword::Foreach => self.foreach_loop(cursor),
            Keyword::Switch => self.switch_statement(cursor),
            Keyword::Break => break_statement(cursor),
            Keyword::Continue => continue_statement(cursor),
            Keyword::Return => return_statement(&self.grammar.parts, cursor),
            Keyword::Echo => echo(&self.grammar.parts, cursor),
            Keyword::Global => global_statement(self.grammar.parts.alloc, cursor),
            Keyword::Static => static_or_expression(&self.grammar.parts, cursor),
            Keyword::Unset => unset(&self.grammar.parts, cursor),
            Keyword::Const if top => const_statement(&self.grammar.parts, cursor),
            Keyword::Const => Err(cursor.refuse()),
            Keyword::Function => self.function_statement(cursor),
            Keyword::Class => self.class_statement(cursor),
            _ => expression(&self.grammar.parts, cursor),
        }
    }

    /// A statement, and whether it stands directly in a file.
    pub fn one_statement(&self, cursor: &mut Cursor<'_>, top: bool) -> Result<Statement, ParseFault>
        requires { Nests self.now.grammar.depth (S.pre self.now.grammar.statement) (S.post self.now.grammar.statement) }
        ensures { Reads (statements.one_statement spec.expressions (spec.nested self.now.grammar.depth) top cursor.old) result cursor.new }
    {
        let [token, ..] = cursor.rest() else {
            return Err(cursor.refuse());
        };
        match &token.kind {
            Kind::Mark(Mark::Semicolon) => empty(cursor),
            Kind::InlineText(bytes) => inline_text(self.grammar.parts.alloc, cursor, bytes),
            Kind::Mark(Mark::OpenBrace) => self.grammar.block(cursor),
            Kind::Keyword(word) => self.by_keyword(cursor, *word, top),
            _ => expression(&self.grammar.parts, cursor),
        }
    }
}

/// A statement in a statement, which nests no deeper than `depth`.
pub fn nested_statement<E: Expressions + Copy>(
    alloc: Global,
    expressions: E,
    cursor: &mut Cursor<'_>,
    depth: usize,
) -> Result<Statement, ParseFault>
    ensures { Reads (spec.nested depth cursor.old) result cursor.new }
{
    if depth == 0 {
        return Err(cursor.refuse());
    }
    let grammar = Grammar {
        parts: Parts { alloc, expressions },
        depth: depth - 1,
        statement: nested_statement::<E>,
    };
    Control { grammar }.one_statement(cursor, false)
}

/// A statement that stands directly in a file, and nests no deeper than `depth`.
pub fn file_statement<E: Expressions + Copy>(
    alloc: Global,
    expressions: E,
    cursor: &mut Cursor<'_>,
    depth: usize,
) -> Result<Statement, ParseFault>
    ensures { Reads (spec.statement spec.expressions depth true cursor.old) result cursor.new }
{
    if depth == 0 {
        return Err(cursor.refuse());
    }
    let grammar = Grammar {
        parts: Parts { alloc, expressions },
        depth: depth - 1,
        statement: nested_statement::<E>,
    };
    Control { grammar }.one_statement(cursor, true)
}
