//! Whether a tree is nested no deeper than a limit, without walking deeper than the limit.

ghost use Rattle.std.specs.Prelude.{◌≡◌, nat_le};
ghost use Rattle.hph_ast.specs.Nesting.{nesting, class_nesting, item_nesting, member_nesting, step_nesting, part_nesting, greatest};

use hph_ast::{Binary, ClassReference, Expr, Item, MemberName, Step, StringPart};

/// Whether the expression is nested no deeper than the limit; a leaf has the nesting 1 (this project's own).
#[cycle(expr_fits)]
#[tactic(auto, using(crate::proofs::Fitting::fitting))]
pub fn expr_fits(expr: &Expr, limit: usize) -> bool
    ensures { result ≡ nat_le (nesting expr.now) limit }
{
    if limit == 0 {
        return false;
    }
    let limit = limit - 1;
    match expr {
        Expr::Int { .. }
        | Expr::Text { .. }
        | Expr::Variable { .. }
        | Expr::Constant { .. }
        | Expr::Directory { .. }
        | Expr::Exit { .. } => true,
        Expr::Interpolated { parts, .. } => parts_fit(parts.as_slice(), limit),
        Expr::Array { items, .. } => items_fit(items.as_slice(), limit),
        Expr::Call { arguments, .. } => exprs_fit(arguments.as_slice(), limit),
        Expr::Isset { paths, .. } => exprs_fit(paths.as_slice(), limit),
        Expr::DynamicCall {
            callee,
            arguments,
            ..
        } => { expr_fits(callee.get(), limit) && exprs_fit(arguments.as_slice(), limit) }
        Expr::StaticCall {
            class,
            name,
            arguments,
            ..
        } => {
            class_fits(class.get(), limit)
                && member_fits(name.get(), limit)
                && exprs_fit(arguments.as_slice(), limit)
        }
        Expr::MethodCall {
            object,
            name,
            arguments,
            ..
        } => {
            expr_fits(object.get(), limit)
                && member_fits(name.get(), limit)
                && exprs_fit(arguments.as_slice(), limit)
        }
        Expr::New {
            class,
            arguments,
            ..
        } => class_fits(class.get(), limit) && exprs_fit(arguments.as_slice(), limit),
        Expr::ClassConstant { class, .. } => class_fits(class.get(), limit),
        Expr::ClassName { class, .. } => class_fits(class.get(), limit),
        Expr::StaticProperty { class, .. } => class_fits(class.get(), limit),
        Expr::Paren { inner, .. } => expr_fits(inner.get(), limit),
        Expr::Empty { operand, .. } => expr_fits(operand.get(), limit),
        Expr::ExitWith { operand, .. } => expr_fits(operand.get(), limit),
        Expr::Path { base, steps, .. } => expr_fits(base.get(), limit)
            && steps_fit(steps.as_slice(), limit),
        Expr::Update { path, .. } => expr_fits(path.get(), limit),
        Expr::Prefix { operand, .. } => expr_fits(operand.get(), limit),
        Expr::InstanceOf {
            subject,
            classes,
            ..
        } => { expr_fits(subject.get(), limit) && classes_fit(classes.as_slice(), limit) }
        Expr::Run { first, more, .. } => expr_fits(first.get(), limit)
            && operands_fit(more.as_slice(), limit),
        Expr::Pair { left, right, .. } => expr_fits(left.get(), limit)
            && expr_fits(right.get(), limit),
        Expr::Ternary {
            test,
            first,
            second,
            ..
        } => {
            expr_fits(test.get(), limit)
                && expr_fits(first.get(), limit)
                && expr_fits(second.get(), limit)
        }
        Expr::ShortTernary { first, more, .. } => expr_fits(first.get(), limit)
            && exprs_fit(more.as_slice(), limit),
        Expr::Assign { target, value, .. } => expr_fits(target.get(), limit)
            && expr_fits(value.get(), limit),
        Expr::AssignReference { target, source, .. } => {
            expr_fits(target.get(), limit) && expr_fits(source.get(), limit)
        }
        Expr::Destructure { items, value, .. } => items_fit(items.as_slice(), limit)
            && expr_fits(value.get(), limit),
        Expr::NamedArgument { value, .. } => expr_fits(value.get(), limit),
    }
}

#[cycle(expr_fits)]
#[tactic(auto, using(crate::proofs::Fitting::fitting))]
fn class_fits(class: &ClassReference, limit: usize) -> bool
    ensures { result ≡ nat_le (class_nesting class.now) limit }
{
    if limit == 0 {
        return false;
    }
    match class {
        ClassReference::ByExpression { class, .. } => expr_fits(class.get(), limit - 1),
        ClassReference::ByName { .. }
        | ClassReference::SelfClass { .. }
        | ClassReference::Parent { .. }
        | ClassReference::Static { .. } => true,
    }
}

#[cycle(expr_fits)]
#[tactic(auto, using(crate::proofs::Fitting::fitting))]
fn item_fits(item: &Item, limit: usize) -> bool
    ensures { result ≡ nat_le (item_nesting item.now) limit }
{
    if limit == 0 {
        return false;
    }
    let limit = limit - 1;
    match item {
        Item::Plain { value, .. } => expr_fits(value.get(), limit),
        Item::Keyed { key, value, .. } => expr_fits(key.get(), limit)
            && expr_fits(value.get(), limit),
        Item::Reference { value, .. } => expr_fits(value.get(), limit),
        Item::KeyedReference { key, value, .. } => expr_fits(key.get(), limit)
            && expr_fits(value.get(), limit),
        Item::Hole { .. } => true,
    }
}

#[cycle(expr_fits)]
#[tactic(auto, using(crate::proofs::Fitting::fitting))]
fn member_fits(name: &MemberName, limit: usize) -> bool
    ensures { result ≡ nat_le (member_nesting name.now) limit }
{
    match name {
        MemberName::Named { .. } => true,
        MemberName::Computed { name } => expr_fits(name.get(), limit),
    }
}

#[cycle(expr_fits)]
#[tactic(auto, using(crate::proofs::Fitting::fitting))]
fn step_fits(step: &Step, limit: usize) -> bool
    ensures { result ≡ nat_le (step_nesting step.now) limit }
{
    match step {
        Step::Index { key, .. } => expr_fits(key.get(), limit),
        Step::Append { .. } => true,
        Step::Property { name, .. } => member_fits(name.get(), limit),
    }
}

#[cycle(expr_fits)]
#[tactic(auto, using(crate::proofs::Fitting::fitting))]
fn part_fits(part: &StringPart, limit: usize) -> bool
    ensures { result ≡ nat_le (part_nesting part.now) limit }
{
    match part {
        StringPart::Piece { .. } => true,
        StringPart::Interpolation { value } => expr_fits(value.get(), limit),
    }
}

#[cycle(expr_fits)]
#[tactic(auto, using(crate::proofs::Fitting::fitting))]
fn exprs_fit(exprs: &[Expr], limit: usize) -> bool
    ensures { result ≡ nat_le (greatest nesting exprs.now) limit }
{
    for expr in exprs {
        if !expr_fits(expr, limit) {
            return false;
        }
    }
    true
}

#[cycle(expr_fits)]
#[tactic(auto, using(crate::proofs::Fitting::fitting))]
fn items_fit(items: &[Item], limit: usize) -> bool
    ensures { result ≡ nat_le (greatest item_nesting items.now) limit }
{
    for item in items {
        if !item_fits(item, limit) {
            return false;
        }
    }
    true
}

#[cycle(expr_fits)]
#[tactic(auto, using(crate::proofs::Fitting::fitting))]
fn steps_fit(steps: &[Step], limit: usize) -> bool
    ensures { result ≡ nat_le (greatest step_nesting steps.now) limit }
{
    for step in steps {
        if !step_fits(step, limit) {
            return false;
        }
    }
    true
}

#[cycle(expr_fits)]
#[tactic(auto, using(crate::proofs::Fitting::fitting))]
fn parts_fit(parts: &[StringPart], limit: usize) -> bool
    ensures { result ≡ nat_le (greatest part_nesting parts.now) limit }
{
    for part in parts {
        if !part_fits(part, limit) {
            return false;
        }
    }
    true
}

#[cycle(expr_fits)]
#[tactic(auto, using(crate::proofs::Fitting::fitting))]
fn classes_fit(classes: &[ClassReference], limit: usize) -> bool
    ensures { result ≡ nat_le (greatest class_nesting classes.now) limit }
{
    for class in classes {
        if !class_fits(class, limit) {
            return false;
        }
    }
    true
}

#[cycle(expr_fits)]
#[tactic(auto, using(crate::proofs::Fitting::fitting))]
fn operands_fit(operands: &[(Binary, Expr)], limit: usize) -> bool
    ensures { result ≡ nat_le (greatest (λ o. nesting o.1) operands.now) limit }
{
    for operand in operands {
        if !expr_fits(&operand.1, limit) {
            return false;
        }
    }
    true
}
