ghost use Rattle.std.specs.Prelude.{◌≡◌, nat_le};
ghost use Rattle.hph_ast.specs.Nesting.{nesting, item_nesting, greatest};
ghost use Rattle.hph_ast.specs.StatementNesting.{maybe, param_nesting, target_nesting, statement_nesting, member_nesting, class_nesting, function_nesting, case_nesting, else_if_nesting, file_nesting};

use crate::nesting::expr_fits;
use hph_ast::{
    Case, Class, ConstantItem, ElseIf, Expr, FileTree, ForeachTarget, Function, Item, Member,
    Param, PropertyItem, Statement, StaticVariable, nesting_of_declarations, nesting_of_items,
    nesting_of_members, nesting_of_statements,
};
use sqlite_items::Boxed;

/// Whether the file's tree is nested no deeper than the limit; the tree is a node too (this project's own).
#[tactic(auto, using(crate::proofs::Nodes::nodes))]
pub fn file_fits(tree: &FileTree, limit: usize) -> bool
    ensures { result ≡ nat_le (file_nesting tree.now) limit }
{
    limit > 0 && statements_fit(tree.statements.as_slice(), limit - 1)
}

#[cycle(statement_fits)]
#[tactic(auto, using(crate::proofs::Nodes::nodes))]
fn statements_fit(statements: &[Statement], limit: usize) -> bool
    ensures { result ≡ nat_le (greatest statement_nesting statements.now) limit }
{
    for statement in statements {
        if !statement_fits(statement, limit) {
            return false;
        }
    }
    true
}

#[cycle(statement_fits)]
#[tactic(auto, using(crate::proofs::Nodes::nodes))]
fn statement_fits(statement: &Statement, limit: usize) -> bool
    ensures { result ≡ nat_le (statement_nesting statement.now) limit }
{
    nesting_of_statements();
    match statement {
        Statement::Function { function } => function_fits(function.get(), limit),
        Statement::Class { class } => class_fits(class.get(), limit),
        Statement::Empty { .. }
        | Statement::InlineText { .. }
        | Statement::Break { .. }
        | Statement::Continue { .. }
        | Statement::Global { .. } => limit > 0,
        Statement::Block { body, .. } => limit > 0 && statements_fit(body.as_slice(), limit - 1),
        Statement::If {
            test,
            body,
            more,
            other,
            ..
        } => {
            limit > 0
                && expr_fits(test.get(), limit - 1)
                && statement_fits(body.get(), limit - 1)
                && else_ifs_fit(more.as_slice(), limit - 1)
                && otherwise_fits(other, limit - 1)
        }
        Statement::While { test, body, .. } => {
            limit > 0 && expr_fits(test.get(), limit - 1) && statement_fits(body.get(), limit - 1)
        }
        Statement::DoWhile { body, test, .. } => {
            limit > 0 && statement_fits(body.get(), limit - 1) && expr_fits(test.get(), limit - 1)
        }
        Statement::For {
            init,
            test,
            step,
            body,
            ..
        } => {
            limit > 0
                && exprs_fit(init.as_slice(), limit - 1)
                && exprs_fit(test.as_slice(), limit - 1)
                && exprs_fit(step.as_slice(), limit - 1)
                && statement_fits(body.get(), limit - 1)
        }
        Statement::Foreach {
            subject,
            value,
            body,
            ..
        } => {
            limit > 0
                && expr_fits(subject.get(), limit - 1)
                && target_fits(value, limit - 1)
                && statement_fits(body.get(), limit - 1)
        }
        Statement::Switch { subject, cases, .. } => {
            limit > 0
                && expr_fits(subject.get(), limit - 1)
                && cases_fit(cases.as_slice(), limit - 1)
        }
        Statement::Expression { value, .. } => limit > 0 && expr_fits(value.get(), limit - 1),
        Statement::Return { value, .. } => limit > 0 && maybe_fits(value, limit - 1),
        Statement::Echo { values, .. } => limit > 0 && exprs_fit(values.as_slice(), limit - 1),
        Statement::Static { variables, .. } => limit > 0
            && variables_fit(variables.as_slice(), limit - 1),
        Statement::Unset { paths, .. } => limit > 0 && exprs_fit(paths.as_slice(), limit - 1),
        Statement::Const { items, .. } => limit > 0 && constants_fit(items.as_slice(), limit - 1),
    }
}

#[cycle(statement_fits)]
#[tactic(auto, using(crate::proofs::Nodes::nodes))]
fn otherwise_fits(other: &Option<Boxed<Statement>>, limit: usize) -> bool
    ensures { result ≡ nat_le (maybe statement_nesting other.now) limit }
{
    match other {
        Some(other) => statement_fits(other.get(), limit),
        None => true,
    }
}

#[cycle(statement_fits)]
#[tactic(auto, using(crate::proofs::Nodes::nodes))]
fn else_ifs_fit(branches: &[ElseIf], limit: usize) -> bool
    ensures { result ≡ nat_le (greatest else_if_nesting branches.now) limit }
{
    nesting_of_declarations();
    for branch in branches {
        if !(expr_fits(branch.test.get(), limit) && statement_fits(branch.body.get(), limit)) {
            return false;
        }
    }
    true
}

#[cycle(statement_fits)]
#[tactic(auto, using(crate::proofs::Nodes::nodes))]
fn cases_fit(cases: &[Case], limit: usize) -> bool
    ensures { result ≡ nat_le (greatest case_nesting cases.now) limit }
{
    nesting_of_declarations();
    for case in cases {
        if !(limit > 0
            && maybe_fits(&case.test, limit - 1)
            && statements_fit(case.body.as_slice(), limit - 1))
        {
            return false;
        }
    }
    true
}

#[cycle(statement_fits)]
#[tactic(auto, using(crate::proofs::Nodes::nodes))]
fn function_fits(function: &Function, limit: usize) -> bool
    ensures { result ≡ nat_le (function_nesting function.now) limit }
{
    nesting_of_declarations();
    limit > 0
        && params_fit(function.params.as_slice(), limit - 1)
        && (function.result.is_none() || limit > 1)
        && statements_fit(function.body.as_slice(), limit - 1)
}

#[cycle(statement_fits)]
#[tactic(auto, using(crate::proofs::Nodes::nodes))]
fn class_fits(class: &Class, limit: usize) -> bool
    ensures { result ≡ nat_le (class_nesting class.now) limit }
{
    nesting_of_declarations();
    limit > 0 && members_fit(class.members.as_slice(), limit - 1)
}

#[cycle(statement_fits)]
#[tactic(auto, using(crate::proofs::Nodes::nodes))]
fn members_fit(members: &[Member], limit: usize) -> bool
    ensures { result ≡ nat_le (greatest member_nesting members.now) limit }
{
    for member in members {
        if !member_fits(member, limit) {
            return false;
        }
    }
    true
}

#[cycle(statement_fits)]
#[tactic(auto, using(crate::proofs::Nodes::nodes))]
fn member_fits(member: &Member, limit: usize) -> bool
    ensures { result ≡ nat_le (member_nesting member.now) limit }
{
    nesting_of_members();
    match member {
        Member::Constants { items, .. } => limit > 0 && constants_fit(items.as_slice(), limit - 1),
        Member::Properties { ty, items, .. } => {
            limit > 0 && (ty.is_none() || limit > 1) && properties_fit(items.as_slice(), limit - 1)
        }
        Member::Method { function, .. } => limit > 0 && function_fits(function.get(), limit - 1),
    }
}

#[tactic(auto, using(crate::proofs::Nodes::nodes))]
fn maybe_fits(value: &Option<Boxed<Expr>>, limit: usize) -> bool
    ensures { result ≡ nat_le (maybe nesting value.now) limit }
{
    match value {
        Some(value) => expr_fits(value.get(), limit),
        None => true,
    }
}

#[tactic(auto, using(crate::proofs::Nodes::nodes))]
fn exprs_fit(exprs: &[Expr], limit: usize) -> bool
    ensures { result ≡ nat_le (greatest nesting exprs.now) limit }
{
    for expr in exprs {
        if !expr_fits(expr, limit) {
            return false;
        }
    }
    true
}

/// A default below the parameter's own node, and its type, which is a leaf.
#[tactic(auto, using(crate::proofs::Nodes::nodes))]
fn param_fits(param: &Param, limit: usize) -> bool
    ensures { result ≡ nat_le (param_nesting param.now) limit }
{
    limit > 0 && (param.ty.is_none() || limit > 1) && maybe_fits(&param.default, limit - 1)
}

#[tactic(auto, using(crate::proofs::Nodes::nodes))]
fn params_fit(params: &[Param], limit: usize) -> bool
    ensures { result ≡ nat_le (greatest param_nesting params.now) limit }
{
    for param in params {
        if !param_fits(param, limit) {
            return false;
        }
    }
    true
}

#[tactic(auto, using(crate::proofs::Nodes::nodes))]
fn constants_fit(items: &[ConstantItem], limit: usize) -> bool
    ensures { result ≡ nat_le (greatest (λ i. nesting i.value) items.now) limit }
{
    for item in items {
        if !expr_fits(item.value.get(), limit) {
            return false;
        }
    }
    true
}

#[tactic(auto, using(crate::proofs::Nodes::nodes))]
fn properties_fit(items: &[PropertyItem], limit: usize) -> bool
    ensures { result ≡ nat_le (greatest (λ i. maybe nesting i.value) items.now) limit }
{
    for item in items {
        if !maybe_fits(&item.value, limit) {
            return false;
        }
    }
    true
}

#[tactic(auto, using(crate::proofs::Nodes::nodes))]
fn variables_fit(variables: &[StaticVariable], limit: usize) -> bool
    ensures { result ≡ nat_le (greatest (λ v. maybe nesting v.value) variables.now) limit }
{
    for variable in variables {
        if !maybe_fits(&variable.value, limit) {
            return false;
        }
    }
    true
}

#[tactic(auto, using(crate::proofs::Nodes::nodes))]
fn item_fits(item: &Item, limit: usize) -> bool
    ensures { result ≡ nat_le (item_nesting item.now) limit }
{
    nesting_of_items();
    match item {
        Item::Plain { value, .. } => limit > 0 && expr_fits(value.get(), limit - 1),
        Item::Reference { value, .. } => limit > 0 && expr_fits(value.get(), limit - 1),
        Item::Keyed { key, value, .. } => limit > 0
            && expr_fits(key.get(), limit - 1)
            && expr_fits(value.get(), limit - 1),
        Item::KeyedReference { key, value, .. } => {
            limit > 0 && expr_fits(key.get(), limit - 1) && expr_fits(value.get(), limit - 1)
        }
        Item::Hole { .. } => limit > 0,
    }
}

#[tactic(auto, using(crate::proofs::Nodes::nodes))]
fn target_fits(target: &ForeachTarget, limit: usize) -> bool
    ensures { result ≡ nat_le (target_nesting target.now) limit }
{
    match target {
        ForeachTarget::Variable { .. } => true,
        ForeachTarget::Reference { source, .. } => expr_fits(source.get(), limit),
        ForeachTarget::Destructure { items, .. } => items_fit(items.as_slice(), limit),
    }
}

#[tactic(auto, using(crate::proofs::Nodes::nodes))]
fn items_fit(items: &[Item], limit: usize) -> bool
    ensures { result ≡ nat_le (greatest item_nesting items.now) limit }
{
    for item in items {
        if !item_fits(item, limit) {
            return false;
        }
    }
    true
}
