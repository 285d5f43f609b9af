//! Constructs of statements, functions and classes that the tree tells; and the first one of a file.
ghost use Rattle.std.specs.Prelude.{◌≡◌, flat_map};
ghost use Rattle.hph_ast.specs.declared.expr.Expr.{out-Expr};
ghost use Rattle.hph_ast.specs.RefusedExpressions.{refused_in};
ghost use Rattle.hph_ast.specs.RefusedStatements as refused;
ghost use Rattle.hph_ast.specs.RefusedStatements.{maybe, statement_refused};
ghost use Rattle.hph_accept.specs.Order.{earliest};
ghost use Rattle.hph_accept.specs.Enclosed.{seen};
ghost use Rattle.hph_accept.specs.Parts.{member_of, members_found, function_of, case_found, else_if_found};

use crate::classes::{duplicate_members, repeated_parameters};
use crate::context::Context;
use crate::declarations::{
    all_bound, bad_break, constants, foreach_target, magic_method, maybe_bound, maybe_expression,
    maybe_type, parameters, properties, static_place, static_variables, unset_paths,
};
use crate::earliest::Earliest;
use crate::expressions::{expression, expressions, include};
use hph_ast::{
    Case, Class, Construct, ElseIf, Expr, FileTree, Function, Member, Prefix, Statement,
};
use std::alloc::Global;

/// An expression that is a whole statement: an include is read as none in an expression.
#[tactic(auto, using(crate::proofs::InTurn::in_turn))]
fn whole_statement(met: Earliest, value: &Expr, context: Context<'_>) -> Earliest
    ensures { result ≡ earliest met (refused.whole_statement value.now (out-Expr value.now) (seen context.entry)) }
{
    match value {
        Expr::Prefix {
            at,
            operator: Prefix::Include(_),
            operand,
        } => include(met, at.start, operand.get(), context),
        _ => expression(met, value, context),
    }
}

/// The earliest of what was met and of what is refused in a statement.
#[cycle(statement)]
#[tactic(auto, using(crate::proofs::StatementParts::the_parts, crate::proofs::InTurn::in_turn))]
fn statement(met: Earliest, one: &Statement, context: Context<'_>) -> Earliest
    ensures { result ≡ earliest met (statement_refused one.now (seen context.entry)) }
{
    match one {
        Statement::Empty { .. } | Statement::InlineText { .. } => met,
        Statement::Block { body, .. } => statements(met, body.as_slice(), context),
        Statement::Expression { value, .. } => whole_statement(met, value.get(), context),
        Statement::Function { function: declared } => {
            function(
                met,
                declared.get(),
                Context::in_plain_function(context.alloc),
            )
        }
        Statement::Class { class: declared } => class(met, declared.get(), context.alloc),
        Statement::If {
            test,
            body,
            more,
            other,
            ..
        } => {
            let met = expression(met, test.get(), context);
            let met = statement(met, body.get(), context);
            let met = else_ifs(met, more.as_slice(), context);
            match other {
                Some(other) => statement(met, other.get(), context),
                None => met,
            }
        }
        Statement::While { test, body, .. } => {
            let met = expression(met, test.get(), context);
            statement(met, body.get(), context.in_loop())
        }
        Statement::DoWhile { body, test, .. } => {
            let met = statement(met, body.get(), context.in_loop());
            expression(met, test.get(), context)
        }
        Statement::For {
            init,
            test,
            step,
            body,
            ..
        } => {
            let met = expressions(met, init.as_slice(), context);
            let met = expressions(met, test.as_slice(), context);
            let met = expressions(met, step.as_slice(), context);
            statement(met, body.get(), context.in_loop())
        }
        Statement::Foreach {
            subject,
            key,
            value,
            body,
            ..
        } => {
            let met = expression(met, subject.get(), context);
            let met = maybe_bound(met, key, context);
            let met = foreach_target(met, value, context);
            statement(met, body.get(), context.in_loop())
        }
        Statement::Switch {
            subject,
            cases: all,
            ..
        } => {
            let met = expression(met, subject.get(), context);
            cases(met, all.as_slice(), context.in_loop())
        }
        Statement::Break { at, levels } | Statement::Continue { at, levels } => {
            bad_break(met, *at, *levels, context)
        }
        Statement::Return { value, .. } => maybe_expression(met, value, context),
        Statement::Echo { values, .. } => expressions(met, values.as_slice(), context),
        Statement::Global { names, .. } => all_bound(met, names.as_slice(), context),
        Statement::Static { at, variables } => {
            let met = static_place(met, *at, context);
            static_variables(met, variables.as_slice(), context)
        }
        Statement::Unset { paths, .. } => unset_paths(met, paths.as_slice(), context),
        Statement::Const { items, .. } => constants(met, items.as_slice(), context),
    }
}

#[cycle(statement)]
#[tactic(auto, using(crate::proofs::InTurn::in_turn))]
fn statements(met: Earliest, body: &[Statement], context: Context<'_>) -> Earliest
    ensures { result ≡ earliest met (flat_map (λ x. statement_refused x (seen context.entry)) body.now) }
{
    let mut met = met;
    for one in body {
        met = statement(met, one, context);
    }
    met
}

#[cycle(statement)]
#[tactic(auto, using(crate::proofs::StatementParts::the_parts, crate::proofs::InTurn::in_turn))]
fn else_ifs(met: Earliest, branches: &[ElseIf], context: Context<'_>) -> Earliest
    ensures { result ≡ earliest met (flat_map (λ x. else_if_found x (seen context.entry)) branches.now) }
{
    let mut met = met;
    for branch in branches {
        met = else_if(met, branch, context);
    }
    met
}

#[cycle(statement)]
#[tactic(auto, using(crate::proofs::StatementParts::the_parts, crate::proofs::InTurn::in_turn))]
fn else_if(met: Earliest, branch: &ElseIf, context: Context<'_>) -> Earliest
    ensures { result ≡ earliest met (else_if_found branch.now (seen context.entry)) }
{
    let met = expression(met, branch.test.get(), context);
    statement(met, branch.body.get(), context)
}

#[cycle(statement)]
#[tactic(auto, using(crate::proofs::InTurn::in_turn))]
fn cases(met: Earliest, cases: &[Case], context: Context<'_>) -> Earliest
    ensures { result ≡ earliest met (flat_map (λ x. case_found x (seen context.entry)) cases.now) }
{
    let mut met = met;
    for one in cases {
        met = case(met, one, context);
    }
    met
}

#[cycle(statement)]
#[tactic(auto, using(crate::proofs::StatementParts::the_parts, crate::proofs::InTurn::in_turn))]
fn case(met: Earliest, one: &Case, context: Context<'_>) -> Earliest
    ensures { result ≡ earliest met (case_found one.now (seen context.entry)) }
{
    let met = maybe_expression(met, &one.test, context);
    statements(met, one.body.as_slice(), context)
}

/// A function, whose parameters and body stand in `context`.
#[cycle(statement)]
#[tactic(auto, using(crate::proofs::StatementParts::the_parts, crate::proofs::InTurn::in_turn))]
fn function(met: Earliest, declared: &Function, context: Context<'_>) -> Earliest
    ensures { result ≡ earliest met ((function_of declared.now).refused (seen context.entry)) }
{
    let params = declared.params.as_slice();
    let met = parameters(met, params, context);
    let met = repeated_parameters(met, params, context.alloc);
    let met = maybe_type(met, &declared.result, context);
    statements(met, declared.body.as_slice(), context)
}

#[cycle(statement)]
#[tactic(auto, using(crate::proofs::StatementParts::the_parts, crate::proofs::InTurn::in_turn))]
fn class(met: Earliest, declared: &Class, alloc: Global) -> Earliest
    ensures { result ≡ earliest met (members_found declared.now) }
{
    let all = declared.members.as_slice();
    let met = duplicate_members(met, all, alloc);
    members(
        met,
        all,
        Context::in_class(alloc, declared.parent.is_some()),
    )
}

#[cycle(statement)]
#[tactic(auto, using(crate::proofs::InTurn::in_turn))]
fn members(met: Earliest, members: &[Member], context: Context<'_>) -> Earliest
    ensures { result ≡ earliest met (flat_map (λ x. (member_of x).refused (seen context.entry)) members.now) }
{
    let mut met = met;
    for one in members {
        met = member(met, one, context);
    }
    met
}

#[cycle(statement)]
#[tactic(auto, using(crate::proofs::StatementParts::the_parts, crate::proofs::InTurn::in_turn))]
fn member(met: Earliest, one: &Member, context: Context<'_>) -> Earliest
    ensures { result ≡ earliest met ((member_of one.now).refused (seen context.entry)) }
{
    match one {
        Member::Constants { items, .. } => constants(met, items.as_slice(), context),
        Member::Properties { ty, items, .. } => {
            let met = maybe_type(met, ty, context);
            properties(met, items.as_slice(), context)
        }
        Member::Method {
            modifiers,
            function: declared,
            ..
        } => {
            let met = magic_method(met, &declared.get().name);
            function(met, declared.get(), context.in_method(modifiers.is_static))
        }
    }
}

/// The first construct that the tree tells, and its offset (this project's own list); none where the tree tells none.
/// Names are compared in pairs where memory runs out.
#[tactic(auto, using(crate::proofs::InTurn::earliest_found))]
pub fn tree_construct(alloc: Global, tree: &FileTree) -> Option<(Construct, u32)>
    ensures { result ≡ refused.tree_construct tree.now }
{
    statements(None, tree.statements.as_slice(), Context::top_level(alloc))
}
