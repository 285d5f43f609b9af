//! The literals of includes.
ghost use Rattle.std.specs.Prelude.{◌≡◌, ◌++◌, ◌∷◌, [], flat_map, IfOk, OnOk};
ghost use Rattle.std.specs.Option.{option_map_or};
ghost use Rattle.hph_ast.specs.RefusedExpressions.{part};
ghost use Rattle.hph_ast.specs.declared.expr.Expr.{out-Expr};
ghost use Rattle.hph_program.specs.Sources.{includes_in, include_at};
ghost use Rattle.hph_included.specs.Literals.{in_branch, in_case, shapes};

use hph_ast::{Case, ElseIf, Expr, Prefix, Statement};
use sqlite_items::Boxed;
use std::alloc::AllocError;

/// Adds the literal of an expression that is a whole statement, where it is an include.
#[tactic(auto, using(crate::proofs::Includes::the_includes))]
fn whole_statement<'a>(found: &mut Vec<&'a Expr>, value: &'a Expr) -> Result<(), AllocError>
    ensures { OnOk result (shapes found.new.items ≡ shapes found.old.items ++ include_at (out-Expr value.now)) }
{
    match value {
        Expr::Prefix {
            operator: Prefix::Include(_),
            operand,
            ..
        } => Ok(found.push(operand.get())?),
        _ => Ok(()),
    }
}

/// Adds the literals of the includes in a statement, in order of text.
#[cycle(statement)]
#[tactic(auto, using(crate::proofs::Includes::the_includes))]
fn in_statement<'a>(found: &mut Vec<&'a Expr>, one: &'a Statement) -> Result<(), AllocError>
    ensures { OnOk result (shapes found.new.items ≡ shapes found.old.items ++ includes_in one.now) }
{
    match one {
        Statement::Block { body, .. } => in_statements(found, body.as_slice()),
        Statement::Expression { value, .. } => whole_statement(found, value.get()),
        Statement::If {
            body,
            more,
            other,
            ..
        } => {
            in_statement(found, body.get())?;
            in_branches(found, more.as_slice())?;
            in_other(found, other)
        }
        Statement::While { body, .. }
        | Statement::DoWhile { body, .. }
        | Statement::For { body, .. }
        | Statement::Foreach { body, .. } => in_statement(found, body.get()),
        Statement::Switch { cases, .. } => in_cases(found, cases.as_slice()),
        Statement::Empty { .. }
        | Statement::InlineText { .. }
        | Statement::Function { .. }
        | Statement::Class { .. }
        | Statement::Break { .. }
        | Statement::Continue { .. }
        | Statement::Return { .. }
        | Statement::Echo { .. }
        | Statement::Global { .. }
        | Statement::Static { .. }
        | Statement::Unset { .. }
        | Statement::Const { .. } => Ok(()),
    }
}

/// Adds those in what stands behind `else`, if something does.
#[cycle(statement)]
fn in_other<'a>(
    found: &mut Vec<&'a Expr>,
    other: &'a Option<Boxed<Statement>>,
) -> Result<(), AllocError>
    ensures { OnOk result (shapes found.new.items ≡ shapes found.old.items ++ option_map_or includes_in other.now []) }
{
    match other {
        Some(other) => in_statement(found, other.get()),
        None => Ok(()),
    }
}

/// Adds those in statements.
#[cycle(statement)]
pub fn in_statements<'a>(found: &mut Vec<&'a Expr>, body: &'a [Statement]) -> Result<(), AllocError>
    ensures { OnOk result (shapes found.new.items ≡ shapes found.old.items ++ flat_map includes_in body.now) }
{
    for one in body {
        in_statement(found, one)?;
    }
    Ok(())
}

/// Adds those in the branches of `elseif`s.
#[cycle(statement)]
#[tactic(auto, using(crate::proofs::Includes::the_includes))]
fn in_branches<'a>(found: &mut Vec<&'a Expr>, branches: &'a [ElseIf]) -> Result<(), AllocError>
    ensures { OnOk result (shapes found.new.items ≡ shapes found.old.items ++ flat_map in_branch branches.now) }
{
    for branch in branches {
        in_statement(found, branch.body.get())?;
    }
    Ok(())
}

/// Adds those in the cases of a `switch`.
#[cycle(statement)]
#[tactic(auto, using(crate::proofs::Includes::the_includes))]
fn in_cases<'a>(found: &mut Vec<&'a Expr>, cases: &'a [Case]) -> Result<(), AllocError>
    ensures { OnOk result (shapes found.new.items ≡ shapes found.old.items ++ flat_map in_case cases.now) }
{
    for case in cases {
        in_statements(found, case.body.as_slice())?;
    }
    Ok(())
}
