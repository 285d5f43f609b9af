//! Where statements stand.

ghost use Rattle.std.specs.Prelude.{◌≡◌};
ghost use Rattle.hph_ast.specs.Statements as places;
ghost use Rattle.hph_ast.specs.declared.class.Class.{out-Class};
ghost use Rattle.hph_ast.specs.declared.function.Function.{out-Function};

use hph_ast::{At, Class, ElseIf, Function, Statement};
use sqlite_items::Boxed;

/// The place of a function.
pub fn function_place(function: &Function) -> At
    ensures { result ≡ places.function_place function.now }
{
    function.at
}

fn class_place(class: &Class) -> At
    ensures { result ≡ places.class_place class.now }
{
    class.at
}

/// The place of a statement.
#[tactic(auto, using(crate::proofs::StatementPlaces::statement_places))]
pub fn statement_place(statement: &Statement) -> At
    ensures { result ≡ places.statement_place statement.now }
{
    match statement {
        Statement::Function { function } => function_place(function.get()),
        Statement::Class { class } => class_place(class.get()),
        Statement::Empty { at }
        | Statement::InlineText { at, .. }
        | Statement::Block { at, .. }
        | Statement::Expression { at, .. }
        | Statement::If { at, .. }
        | Statement::While { at, .. }
        | Statement::DoWhile { at, .. }
        | Statement::For { at, .. }
        | Statement::Foreach { at, .. }
        | Statement::Switch { at, .. }
        | Statement::Break { at, .. }
        | Statement::Continue { at, .. }
        | Statement::Return { at, .. }
        | Statement::Echo { at, .. }
        | Statement::Global { at, .. }
        | Statement::Static { at, .. }
        | Statement::Unset { at, .. }
        | Statement::Const { at, .. } => *at,
    }
}

/// The place of the last statement, or the one given where there is none.
pub fn last_statement(first: At, statements: &[Statement]) -> At
    ensures { result ≡ places.last_statement first statements.now }
{
    let mut last = first;
    for statement in statements {
        last = statement_place(statement);
    }
    last
}

fn last_branch(first: At, branches: &[ElseIf]) -> At
    ensures { result ≡ places.last_branch first branches.now }
{
    let mut last = first;
    for branch in branches {
        last = statement_place(branch.body.get());
    }
    last
}

/// The place of the last part of an `if` whose first branch has a place.
pub fn last_part(first: At, branches: &[ElseIf], other: &Option<Boxed<Statement>>) -> At
    ensures { result ≡ places.last_part first branches.now other.now }
{
    match other {
        Some(other) => statement_place(other.get()),
        None => last_branch(first, branches),
    }
}

/// The place from a file's first statement to its last.
pub fn file_place(statements: &[Statement]) -> At
    ensures { result ≡ places.file_place statements.now }
{
    match statements {
        [] => At {
            start: 0,
            end: 0,
            site: 0,
        },
        [first, rest @ ..] => {
            let first = statement_place(first);
            hph_cursor::span(first, last_statement(first, rest))
        }
    }
}
