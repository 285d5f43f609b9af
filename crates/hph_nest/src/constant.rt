//! Which expressions may be the value of a constant, a default or an initial value.

ghost use Rattle.std.specs.Prelude.{◌≡◌};
ghost use Rattle.std.specs.List.{list_all};
ghost use Rattle.hph_ast.specs.ConstantExpressions as spec;
ghost use Rattle.hph_nest.specs.ConstantParts.{constant_class, constant_item, constant_member, constant_part, constant_step};

use hph_ast::{Binary, ClassReference, Expr, Item, MemberName, Prefix, Step, StringPart};

/// Whether a prefix operator may stand in the value of a constant.
fn is_constant_prefix(operator: Prefix) -> bool
    ensures { result ≡ spec.is_constant_prefix operator }
{
    !matches!(operator, Prefix::Print | Prefix::Include(_))
}

/// Whether an expression has no variable, static property, assignment, call, `new`, print, isset, empty, exit or
/// include (this project's own; PHP's rule is narrower in places and wider in others).
#[cycle(is_constant)]
#[tactic(auto, using(crate::proofs::Constants::constants))]
pub fn is_constant(expr: &Expr) -> bool
    ensures { result ≡ spec.is_constant expr.now }
{
    match expr {
        Expr::Int { .. } | Expr::Text { .. } | Expr::Constant { .. } | Expr::Directory { .. } =>
            true,
        Expr::Interpolated { parts, .. } => parts_are_constant(parts.as_slice()),
        Expr::Array { items, .. } => items_are_constant(items.as_slice()),
        Expr::ClassConstant { class, .. } => class_is_constant(class.get()),
        Expr::ClassName { class, .. } => class_is_constant(class.get()),
        Expr::Paren { inner, .. } => is_constant(inner.get()),
        Expr::Path { base, steps, .. } => is_constant(base.get())
            && steps_are_constant(steps.as_slice()),
        Expr::Prefix {
            operator,
            operand,
            ..
        } => is_constant_prefix(*operator) && is_constant(operand.get()),
        Expr::InstanceOf {
            subject,
            classes,
            ..
        } => is_constant(subject.get()) && classes_are_constant(classes.as_slice()),
        Expr::Run { first, more, .. } => is_constant(first.get())
            && operands_are_constant(more.as_slice()),
        Expr::Pair { left, right, .. } => is_constant(left.get()) && is_constant(right.get()),
        Expr::Ternary {
            test,
            first,
            second,
            ..
        } => { is_constant(test.get()) && is_constant(first.get()) && is_constant(second.get()) }
        Expr::ShortTernary { first, more, .. } => is_constant(first.get())
            && exprs_are_constant(more.as_slice()),
        Expr::Variable { .. }
        | Expr::Call { .. }
        | Expr::DynamicCall { .. }
        | Expr::StaticCall { .. }
        | Expr::MethodCall { .. }
        | Expr::New { .. }
        | Expr::StaticProperty { .. }
        | Expr::Isset { .. }
        | Expr::Empty { .. }
        | Expr::Exit { .. }
        | Expr::ExitWith { .. }
        | Expr::Update { .. }
        | Expr::Assign { .. }
        | Expr::AssignReference { .. }
        | Expr::Destructure { .. }
        | Expr::NamedArgument { .. } => false,
    }
}

#[cycle(is_constant)]
#[tactic(auto, using(crate::proofs::Constants::constants))]
fn class_is_constant(class: &ClassReference) -> bool
    ensures { result ≡ constant_class class.now }
{
    match class {
        ClassReference::ByExpression { class, .. } => is_constant(class.get()),
        ClassReference::ByName { .. }
        | ClassReference::SelfClass { .. }
        | ClassReference::Parent { .. }
        | ClassReference::Static { .. } => true,
    }
}

#[cycle(is_constant)]
#[tactic(auto, using(crate::proofs::Constants::constants))]
fn item_is_constant(item: &Item) -> bool
    ensures { result ≡ constant_item item.now }
{
    match item {
        Item::Plain { value, .. } => is_constant(value.get()),
        Item::Keyed { key, value, .. } => is_constant(key.get()) && is_constant(value.get()),
        Item::Reference { .. } | Item::KeyedReference { .. } | Item::Hole { .. } => false,
    }
}

#[cycle(is_constant)]
#[tactic(auto, using(crate::proofs::Constants::constants))]
fn member_is_constant(name: &MemberName) -> bool
    ensures { result ≡ constant_member name.now }
{
    match name {
        MemberName::Named { .. } => true,
        MemberName::Computed { name } => is_constant(name.get()),
    }
}

#[cycle(is_constant)]
#[tactic(auto, using(crate::proofs::Constants::constants))]
fn step_is_constant(step: &Step) -> bool
    ensures { result ≡ constant_step step.now }
{
    match step {
        Step::Index { key, .. } => is_constant(key.get()),
        Step::Append { .. } => false,
        Step::Property { name, .. } => member_is_constant(name.get()),
    }
}

#[cycle(is_constant)]
#[tactic(auto, using(crate::proofs::Constants::constants))]
fn part_is_constant(part: &StringPart) -> bool
    ensures { result ≡ constant_part part.now }
{
    match part {
        StringPart::Piece { .. } => true,
        StringPart::Interpolation { value } => is_constant(value.get()),
    }
}

#[cycle(is_constant)]
#[tactic(auto, using(crate::proofs::Constants::constants))]
fn exprs_are_constant(exprs: &[Expr]) -> bool
    ensures { result ≡ list_all spec.is_constant exprs.now }
{
    for expr in exprs {
        if !is_constant(expr) {
            return false;
        }
    }
    true
}

#[cycle(is_constant)]
#[tactic(auto, using(crate::proofs::Constants::constants))]
fn items_are_constant(items: &[Item]) -> bool
    ensures { result ≡ list_all constant_item items.now }
{
    for item in items {
        if !item_is_constant(item) {
            return false;
        }
    }
    true
}

#[cycle(is_constant)]
#[tactic(auto, using(crate::proofs::Constants::constants))]
fn steps_are_constant(steps: &[Step]) -> bool
    ensures { result ≡ list_all constant_step steps.now }
{
    for step in steps {
        if !step_is_constant(step) {
            return false;
        }
    }
    true
}

#[cycle(is_constant)]
#[tactic(auto, using(crate::proofs::Constants::constants))]
fn parts_are_constant(parts: &[StringPart]) -> bool
    ensures { result ≡ list_all constant_part parts.now }
{
    for part in parts {
        if !part_is_constant(part) {
            return false;
        }
    }
    true
}

#[cycle(is_constant)]
#[tactic(auto, using(crate::proofs::Constants::constants))]
fn classes_are_constant(classes: &[ClassReference]) -> bool
    ensures { result ≡ list_all constant_class classes.now }
{
    for class in classes {
        if !class_is_constant(class) {
            return false;
        }
    }
    true
}

#[cycle(is_constant)]
#[tactic(auto, using(crate::proofs::Constants::constants))]
fn operands_are_constant(operands: &[(Binary, Expr)]) -> bool
    ensures { result ≡ list_all (λ o. spec.is_constant o.1) operands.now }
{
    for operand in operands {
        if !is_constant(&operand.1) {
            return false;
        }
    }
    true
}
