//! The parser of files, with expressions nested no deeper than a file's may be.

ghost use Rattle.hph_ast.specs.declared.token.Mark.TheVariants.{CloseBracket};
ghost use Rattle.hph_ast.specs.Shapes.{is_written};
ghost use Rattle.hph_cursor.specs.Reads.{Reads};
ghost use Rattle.hph_fexpr.specs.Arrays.{elements, source};
ghost use Rattle.hph_fexpr.specs.Lists.{paths};
ghost use Rattle.hph_fexpr.specs.declared.form.Form.TheVariants.{Level};
ghost use Rattle.hph_fstmt.specs.Parser as spec;
ghost use Rattle.hph_parse.specs.Public.{IsAnswer};

use crate::error::TreeFault;
use crate::file::{DEEPEST, parse_with};
use hph_ast::{At, Expr, FileTree, Mark, Token};
use hph_cursor::{Cursor, ParseFault};
use hph_fexpr::{Elements, Form};
use hph_parts::Expressions;
use hph_pexpr::{nested, nested_elements, nested_paths, nested_source};
use hph_postfix::PathTest;
use sqlite_items::{Boxed, Items};
use std::alloc::Global;

/// The parser of expressions, as deep as a file's may be nested.
#[derive(Clone, Copy)]
struct FileExpressions;

impl Expressions for FileExpressions {
    #[tactic(auto, unfolding(hph_fstmt::specs::Parser::expressions))]
    fn expression(&self, alloc: Global, cursor: &mut Cursor<'_>) -> Result<Boxed<Expr>, ParseFault>
        ensures { Reads (spec.expressions (Level 1) cursor.old) result cursor.new }
    {
        nested(alloc, cursor, DEEPEST, Form::Level(1))
    }

    #[tactic(auto, unfolding(hph_fstmt::specs::Parser::expressions))]
    fn written_paths(
        &self,
        alloc: Global,
        cursor: &mut Cursor<'_>,
    ) -> Result<(Items<Expr>, At), ParseFault>
        ensures { Reads (paths spec.expressions is_written cursor.old) result cursor.new }
    {
        nested_paths(alloc, cursor, DEEPEST, PathTest::WrittenPath)
    }

    #[tactic(auto, unfolding(hph_fstmt::specs::Parser::expressions))]
    fn source(&self, alloc: Global, cursor: &mut Cursor<'_>) -> Result<Boxed<Expr>, ParseFault>
        ensures { Reads (source spec.expressions cursor.old) result cursor.new }
    {
        nested_source(alloc, cursor, DEEPEST)
    }

    #[tactic(auto, unfolding(hph_fstmt::specs::Parser::expressions))]
    fn targets(&self, alloc: Global, cursor: &mut Cursor<'_>) -> Result<Elements, ParseFault>
        ensures { Reads (elements spec.expressions CloseBracket cursor.old) result cursor.new }
    {
        nested_elements(alloc, cursor, DEEPEST, Mark::CloseBracket)
    }
}

/// The tree that the tokens of a file spell. `TooDeep` comes first; `Syntax` where they spell no tree, or one that is
/// nested deeper than 512.
pub fn parse(alloc: Global, tokens: &[Token]) -> Result<FileTree, TreeFault>
    ensures { IsAnswer tokens.now result }
{
    parse_with(alloc, FileExpressions, tokens)
}
