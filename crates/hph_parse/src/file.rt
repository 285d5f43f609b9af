//! Files.

ghost use Rattle.std.specs.Prelude.{true};
ghost use Rattle.hph_cursor.specs.Reads.{Reads};
ghost use Rattle.hph_fstmt.specs.Parser as spec;
ghost use Rattle.hph_fstmt.specs.Repeats as repeats;
ghost use Rattle.hph_fstmt.specs.Statements as statements;
ghost use Rattle.hph_parse.specs.Public.{Answers, IsAnswer};

use crate::brackets::first_deep;
use crate::deep::first_too_deep;
use crate::error::TreeFault;
use hph_ast::{FileTree, Statement, Token};
use hph_cursor::{Cursor, ParseFault};
use hph_fstmt::files_are_read;
use hph_nest::file_fits;
use hph_parts::Expressions;
use hph_parts::ends::ends_statements;
use hph_parts::places::file_place;
use hph_pstmt::file_statement;
use hph_repeats::{Ends, Rule, many};
use sqlite_items::Items;
use std::alloc::Global;

/// How deep statements and expressions are nested at most; the file's tree is a node too.
pub const DEEPEST: usize = 511;

const NESTING_LIMIT: usize = 512;

/// The rule of a statement that stands directly in a file.
#[derive(Clone, Copy)]
struct FileRule<E> {
    alloc: Global,
    expressions: E,
}

impl<E: Expressions + Copy> Rule for FileRule<E> {
    ghost use Rattle.std.specs.Prelude.{true};
    ghost use Rattle.hph_fstmt.specs.Parser as spec;

    type Node = Statement;

    ghost can_read = { λ _. Unit {0} };

    ghost grammar = { λ _. spec.statement spec.expressions spec.deepest true };

    fn read(&self, cursor: &mut Cursor<'_>) -> Result<Statement, ParseFault> {
        file_statement(self.alloc, self.expressions, cursor, DEEPEST)
    }
}

impl<E: Expressions + Copy> Ends for FileRule<E> {
    ghost use Rattle.hph_fstmt.specs.Statements as statements;

    ghost ends = { statements.ends_statements };

    fn at_end(&self, cursor: &Cursor<'_>) -> bool {
        ends_statements(cursor)
    }
}

fn file_statements<E: Expressions + Copy>(
    alloc: Global,
    expressions: E,
    cursor: &mut Cursor<'_>,
) -> Result<Items<Statement>, ParseFault>
    ensures { Reads (repeats.many statements.ends_statements (spec.statement spec.expressions spec.deepest true) cursor.old) result cursor.new }
{
    many(alloc, &FileRule { alloc, expressions }, cursor)
}

/// The tree of all tokens.
#[tactic(auto, unfolding(hph_fstmt::specs::Parser::file, hph_fstmt::specs::Parser::expressions))]
fn tree<E: Expressions + Copy>(
    alloc: Global,
    expressions: E,
    tokens: &[Token],
) -> Result<FileTree, ParseFault>
    ensures { Answers (spec.file spec.deepest tokens.now) result }
{
    let mut cursor = Cursor::new(tokens, tokens.len());
    let statements = file_statements(alloc, expressions, &mut cursor)?;
    match cursor.rest() {
        [] => Ok(FileTree {
            at: file_place(statements.as_slice()),
            statements,
        }),
        [..] => Err(cursor.refuse()),
    }
}

/// The tree that the tokens of a file spell, with a parser of expressions. `TooDeep` comes first; `Syntax` where
/// they spell no tree, or one that is nested deeper than 512.
#[tactic(auto, using(crate::proofs::Files::answers))]
pub fn parse_with<E: Expressions + Copy>(
    alloc: Global,
    expressions: E,
    tokens: &[Token],
) -> Result<FileTree, TreeFault>
    ensures { IsAnswer tokens.now result }
{
    files_are_read();
    if let Some(index) = first_deep(tokens) {
        return Err(TreeFault::TooDeep(index));
    }
    match tree(alloc, expressions, tokens) {
        Ok(found) if file_fits(&found, NESTING_LIMIT) => Ok(found),
        Ok(deep) => Err(TreeFault::Syntax(first_too_deep(&deep, tokens, NESTING_LIMIT))),
        Err(ParseFault::Syntax(index)) => Err(TreeFault::Syntax(index)),
        Err(ParseFault::NoMemory) => Err(TreeFault::NoMemory),
    }
}
