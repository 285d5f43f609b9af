//! Where a file is nested too deep: the first statement or expression that stands, or goes, deeper than a limit.
//!
//! The place is for those who read the refusal; no clause speaks of it. `file_fits` decides whether a file is too deep.

use hph_ast::{
    Case, Class, ElseIf, Expr, FileTree, ForeachTarget, Function, Member, Param, Statement, Token,
};
use hph_cursor::place;
use hph_nest::expr_fits;
use hph_parts::places::statement_place;
use sqlite_items::Boxed;

/// The index of the token with which what is nested deeper than the limit begins; that behind the last one where nothing is found.
pub fn first_too_deep(tree: &FileTree, tokens: &[Token], limit: usize) -> usize {
    match in_statements(None, tree.statements.as_slice(), limit.saturating_sub(1)) {
        Some(offset) => token_at(tokens, offset),
        None => tokens.len(),
    }
}

/// The first token from an offset on.
fn token_at(tokens: &[Token], offset: u32) -> usize {
    for index in 0..tokens.len() {
        if tokens[index].start >= offset {
            return index;
        }
    }
    tokens.len()
}

fn in_expression(found: Option<u32>, expr: &Expr, limit: usize) -> Option<u32> {
    if found.is_some() || expr_fits(expr, limit) {
        found
    } else {
        Some(place(expr).start)
    }
}

fn in_expressions(mut found: Option<u32>, exprs: &[Expr], limit: usize) -> Option<u32> {
    for expr in exprs {
        found = in_expression(found, expr, limit);
    }
    found
}

fn in_maybe_expression(
    found: Option<u32>,
    expr: &Option<Boxed<Expr>>,
    limit: usize,
) -> Option<u32> {
    match expr {
        Some(expr) => in_expression(found, expr.get(), limit),
        None => found,
    }
}

#[cycle(deep)]
fn in_statements(mut found: Option<u32>, statements: &[Statement], limit: usize) -> Option<u32> {
    for each in statements {
        found = in_statement(found, each, limit);
    }
    found
}

/// A statement that stands where its nesting may be as deep as the limit.
#[cycle(deep)]
fn in_statement(found: Option<u32>, statement: &Statement, limit: usize) -> Option<u32> {
    if found.is_some() {
        return found;
    }
    if limit == 0 {
        return Some(statement_place(statement).start);
    }
    match statement {
        Statement::Function { function } => in_function(found, function.get(), limit - 1),
        Statement::Class { class } => in_class(found, class.get(), limit - 1),
        _ => in_parts(found, statement, limit - 1),
    }
}

/// The parts of a statement, in the order in which they stand.
#[cycle(deep)]
fn in_parts(found: Option<u32>, statement: &Statement, limit: usize) -> Option<u32> {
    match statement {
        Statement::Block { body, .. } => in_statements(found, body.as_slice(), limit),
        Statement::Expression { value, .. } => in_expression(found, value.get(), limit),
        Statement::If {
            test,
            body,
            more,
            other,
            ..
        } => {
            let found = in_expression(found, test.get(), limit);
            let found = in_statement(found, body.get(), limit);
            let found = in_branches(found, more.as_slice(), limit);
            match other {
                Some(other) => in_statement(found, other.get(), limit),
                None => found,
            }
        }
        Statement::While { test, body, .. } => {
            in_statement(in_expression(found, test.get(), limit), body.get(), limit)
        }
        Statement::DoWhile { body, test, .. } => {
            in_expression(in_statement(found, body.get(), limit), test.get(), limit)
        }
        Statement::For {
            init,
            test,
            step,
            body,
            ..
        } => {
            let found = in_expressions(found, init.as_slice(), limit);
            let found = in_expressions(found, test.as_slice(), limit);
            let found = in_expressions(found, step.as_slice(), limit);
            in_statement(found, body.get(), limit)
        }
        Statement::Foreach {
            subject,
            value,
            body,
            ..
        } => {
            let found = in_expression(found, subject.get(), limit);
            in_statement(in_target(found, value, limit), body.get(), limit)
        }
        Statement::Switch { subject, cases, .. } => {
            in_cases(
                in_expression(found, subject.get(), limit),
                cases.as_slice(),
                limit,
            )
        }
        Statement::Return { value, .. } => in_maybe_expression(found, value, limit),
        Statement::Echo { values, .. } => in_expressions(found, values.as_slice(), limit),
        Statement::Unset { paths, .. } => in_expressions(found, paths.as_slice(), limit),
        _ => found,
    }
}

fn in_target(found: Option<u32>, target: &ForeachTarget, limit: usize) -> Option<u32> {
    match target {
        ForeachTarget::Reference { source, .. } => in_expression(found, source.get(), limit),
        ForeachTarget::Variable { .. } | ForeachTarget::Destructure { .. } => found,
    }
}

#[cycle(deep)]
fn in_branches(mut found: Option<u32>, branches: &[ElseIf], limit: usize) -> Option<u32> {
    for branch in branches {
        found = in_expression(found, branch.test.get(), limit);
        found = in_statement(found, branch.body.get(), limit);
    }
    found
}

#[cycle(deep)]
fn in_cases(mut found: Option<u32>, cases: &[Case], limit: usize) -> Option<u32> {
    for case in cases {
        found = in_maybe_expression(found, &case.test, limit.saturating_sub(1));
        found = in_statements(found, case.body.as_slice(), limit.saturating_sub(1));
    }
    found
}

fn in_params(mut found: Option<u32>, params: &[Param], limit: usize) -> Option<u32> {
    for param in params {
        found = in_maybe_expression(found, &param.default, limit.saturating_sub(1));
    }
    found
}

#[cycle(deep)]
fn in_function(found: Option<u32>, function: &Function, limit: usize) -> Option<u32> {
    let found = in_params(found, function.params.as_slice(), limit);
    in_statements(found, function.body.as_slice(), limit)
}

#[cycle(deep)]
fn in_class(mut found: Option<u32>, class: &Class, limit: usize) -> Option<u32> {
    for each in class.members.as_slice() {
        found = in_member(found, each, limit);
    }
    found
}

#[cycle(deep)]
fn in_member(found: Option<u32>, member: &Member, limit: usize) -> Option<u32> {
    if limit == 0 {
        return found;
    }
    match member {
        Member::Method { function, .. } => in_function(
            found,
            function.get(),
            limit.saturating_sub(2),
        ),
        Member::Constants { .. } | Member::Properties { .. } => found,
    }
}
