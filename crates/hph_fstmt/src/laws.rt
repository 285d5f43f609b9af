//! Laws of the parser on lists of tokens: contracts of functions that do nothing.

ghost use Rattle.std.specs.Prelude.{◌≡◌, ◌≤◌, ℕ, suc, Bool, List, Option, Some};
ghost use Rattle.hph_ast.specs.declared.token.Token.{Token};
ghost use Rattle.hph_ast.specs.declared.stmt.Statement.{Statement};
ghost use Rattle.hph_ast.specs.declared.program.FileTree.{FileTree};
ghost use Rattle.hph_ast.specs.Statements.{IsStatement, IsFile};
ghost use Rattle.hph_ast.specs.StatementNesting.{statement_nesting, file_nesting, SpellsTree};
ghost use Rattle.hph_fexpr.specs.Parser.{parse};
ghost use Rattle.hph_fstmt.specs.Laws.{ExpressionLaws, NestingLaws, Laws};
ghost use Rattle.hph_fstmt.specs.Parser.{statement, file};

use hph_ast::{nesting_of_declarations, nesting_of_members, nesting_of_statements};
use hph_fexpr::{parser_is_complete, parser_is_sound, paths_are_read, targets_are_read};

/// What is known of the parser of expressions, as the proofs take it.
fn expression_laws()
    ensures { ExpressionLaws }
{
    parser_is_sound();
    parser_is_complete();
    paths_are_read();
    targets_are_read();
}

/// How deep statements are nested, as the proofs take it.
fn nesting_laws()
    ensures { NestingLaws }
{
    nesting_of_statements();
    nesting_of_members();
    nesting_of_declarations();
}

/// What the proofs take from the crates below.
fn laws()
    ensures { Laws }
{
    expression_laws();
    nesting_laws();
}

/// Tokens spell at most one statement, and it ends at one place.
pub fn one_statement()
    ensures { (top : Bool) (tokens : List Token) (x y : Statement) (rest other : List Token) → IsStatement top tokens x rest → IsStatement top tokens y other → (x ≡ y) × (rest ≡ other) }
{
    laws();
}

/// Tokens spell at most one file.
pub fn one_file()
    ensures tree { (tokens : List Token) (x y : FileTree) → IsFile tokens x → IsFile tokens y → x ≡ y }
    ensures spelled { (tokens : List Token) (x y : FileTree) → SpellsTree tokens x → SpellsTree tokens y → x ≡ y }
{
    laws();
}

/// What the parser reads as a statement is one, and each that is nested no deeper than it goes is read.
pub fn statements_are_read()
    ensures sound { (limit depth : ℕ) (top : Bool) (tokens : List Token) (x : Statement) (rest : List Token) → statement (parse limit) depth top tokens ≡ Some (x, rest) → IsStatement top tokens x rest }
    ensures complete { (limit depth : ℕ) (top : Bool) (tokens : List Token) (x : Statement) (rest : List Token) → depth ≤ suc limit → IsStatement top tokens x rest → statement_nesting x ≤ depth → statement (parse limit) depth top tokens ≡ Some (x, rest) }
{
    laws();
}

/// What the parser reads as a file is one, and each that is nested no deeper than it goes is read.
pub fn files_are_read()
    ensures sound { (depth : ℕ) (tokens : List Token) (tree : FileTree) → file depth tokens ≡ Some tree → IsFile tokens tree }
    ensures complete { (depth : ℕ) (tokens : List Token) (tree : FileTree) → IsFile tokens tree → file_nesting tree ≤ suc depth → file depth tokens ≡ Some tree }
{
    laws();
}
