//! Where nodes stand.

ghost use Rattle.std.specs.Prelude.{◌≡◌};
ghost use Rattle.hph_ast.specs.Places as places;

use hph_ast::{At, Binary, ClassReference, Expr, Step, Token};

/// The place of a token.
pub fn on(token: &Token) -> At
    ensures { result ≡ places.on token.now }
{
    At {
        start: token.start,
        end: token.end,
        site: 0,
    }
}

/// The place of a node that begins with one place and ends with another.
pub fn span(first: At, last: At) -> At
    ensures { result ≡ places.span first last }
{
    At {
        start: first.start,
        end: last.end,
        site: 0,
    }
}

/// The place of an expression.
#[tactic(auto, using(crate::proofs::Variants::expr_places))]
pub fn place(expr: &Expr) -> At
    ensures { result ≡ places.place expr.now }
{
    match expr {
        Expr::Int { at, .. }
        | Expr::Text { at, .. }
        | Expr::Interpolated { at, .. }
        | Expr::Variable { at, .. }
        | Expr::Constant { at, .. }
        | Expr::Directory { at }
        | Expr::Array { at, .. }
        | Expr::Call { at, .. }
        | Expr::DynamicCall { at, .. }
        | Expr::StaticCall { at, .. }
        | Expr::MethodCall { at, .. }
        | Expr::New { at, .. }
        | Expr::ClassConstant { at, .. }
        | Expr::ClassName { at, .. }
        | Expr::StaticProperty { at, .. }
        | Expr::Paren { at, .. }
        | Expr::Isset { at, .. }
        | Expr::Empty { at, .. }
        | Expr::Exit { at }
        | Expr::ExitWith { at, .. }
        | Expr::Path { at, .. }
        | Expr::Update { at, .. }
        | Expr::Prefix { at, .. }
        | Expr::InstanceOf { at, .. }
        | Expr::Run { at, .. }
        | Expr::Pair { at, .. }
        | Expr::Ternary { at, .. }
        | Expr::ShortTernary { at, .. }
        | Expr::Assign { at, .. }
        | Expr::AssignReference { at, .. }
        | Expr::Destructure { at, .. }
        | Expr::NamedArgument { at, .. } => *at,
    }
}

/// The place of the class that an expression names.
#[tactic(auto, using(crate::proofs::Variants::class_places))]
pub fn class_place(class: &ClassReference) -> At
    ensures { result ≡ places.class_place class.now }
{
    match class {
        ClassReference::ByName { at, .. }
        | ClassReference::SelfClass { at }
        | ClassReference::Parent { at }
        | ClassReference::Static { at }
        | ClassReference::ByExpression { at, .. } => *at,
    }
}

#[tactic(auto, using(crate::proofs::Variants::step_places))]
fn step_place(step: &Step) -> At
    ensures { result ≡ places.step_place step.now }
{
    match step {
        Step::Index { at, .. } | Step::Append { at } | Step::Property { at, .. } => *at,
    }
}

/// The place of the last step, or the one given where there is none.
pub fn last_step(first: At, steps: &[Step]) -> At
    ensures { result ≡ places.last_step first steps.now }
{
    let mut last = first;
    for step in steps {
        last = step_place(step);
    }
    last
}

/// The place of the last operand, or the one given where there is none.
pub fn last_operand(first: At, operands: &[(Binary, Expr)]) -> At
    ensures { result ≡ places.last_operand first operands.now }
{
    let mut last = first;
    for operand in operands {
        last = place(&operand.1);
    }
    last
}

/// The place of the last expression, or the one given where there is none.
pub fn last_expr(first: At, exprs: &[Expr]) -> At
    ensures { result ≡ places.last_expr first exprs.now }
{
    let mut last = first;
    for expr in exprs {
        last = place(expr);
    }
    last
}

/// The place of the last class, or the one given where there is none.
pub fn last_class(first: At, classes: &[ClassReference]) -> At
    ensures { result ≡ places.last_class first classes.now }
{
    let mut last = first;
    for class in classes {
        last = class_place(class);
    }
    last
}
