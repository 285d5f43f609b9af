//! Constructs of expressions that the tree tells.
ghost use Rattle.std.specs.Prelude.{◌≡◌, flat_map};
ghost use Rattle.hph_ast.specs.declared.operator.Binary.{Binary};
ghost use Rattle.hph_ast.specs.declared.expr.Expr.{Expr};
ghost use Rattle.hph_ast.specs.RefusedExpressions as refused;
ghost use Rattle.hph_ast.specs.RefusedExpressions.{part, refused_in, item_found};
ghost use Rattle.hph_accept.specs.Order.{earliest};
ghost use Rattle.hph_accept.specs.Enclosed.{seen};
ghost use Rattle.hph_accept.specs.Parts.{class_found, name_found, step_found, piece_found};

use crate::context::Context;
use crate::earliest::{Earliest, meet, meet_if};
use crate::names::is_word;
use crate::shapes::{is_include_path, is_plain_variable, is_this, is_this_name, start};
use hph_ast::{
    Binary, ClassReference, Construct, Expr, Item, MemberName, Prefix, Step, StringPart,
};

/// `$this` where there is none.
pub fn this_outside(met: Earliest, name: &[u8], offset: u32, context: Context<'_>) -> Earliest
    ensures { result ≡ earliest met (refused.this_outside (seen context.entry) (refused.is_this_name name.now) offset) }
{
    meet_if(
        met,
        is_this_name(name) && !context.has_this,
        Construct::ThisOutside,
        offset,
    )
}

/// `$this` that is assigned, bound, unset or moved.
pub fn this_written(met: Earliest, path: &Expr) -> Earliest
    ensures { result ≡ earliest met (refused.this_written (part path.now)) }
{
    meet_if(met, is_this(path), Construct::ThisWrite, start(path))
}

/// A call of `define`, `extract` or `compact`.
fn library_name(met: Earliest, name: &[u8], offset: u32) -> Earliest
    ensures { result ≡ earliest met (refused.library_name name.now offset) }
{
    let is_one = is_word(b"define", name) || is_word(b"extract", name) || is_word(b"compact", name);
    meet_if(met, is_one, Construct::LibraryName, offset)
}

/// An include: it stands in no function, and its path is a string or `__DIR__` and a string.
#[cycle(expression)]
#[tactic(auto, using(crate::proofs::ExpressionParts::the_parts, crate::proofs::InTurn::in_turn))]
pub fn include(met: Earliest, offset: u32, path: &Expr, context: Context<'_>) -> Earliest
    ensures { result ≡ earliest met (refused.include_refused offset (part path.now) (seen context.entry)) }
{
    let met = meet_if(
        met,
        context.in_function,
        Construct::IncludeInFunction,
        offset,
    );
    let met = meet_if(
        met,
        !is_include_path(path),
        Construct::IncludePath,
        start(path),
    );
    expression(met, path, context.in_path())
}

/// The earliest of what was met and of what is refused in an expression.
#[cycle(expression)]
#[tactic(auto, using(crate::proofs::ExpressionParts::the_parts, crate::proofs::InTurn::in_turn))]
pub fn expression(met: Earliest, expr: &Expr, context: Context<'_>) -> Earliest
    ensures { result ≡ earliest met (refused_in expr.now (seen context.entry)) }
{
    match expr {
        Expr::Int { .. } | Expr::Text { .. } | Expr::Constant { .. } | Expr::Exit { .. } => met,
        Expr::Interpolated { parts, .. } => pieces(met, parts.as_slice(), context),
        Expr::Variable { at, name } => this_outside(met, name.as_slice(), at.start, context),
        Expr::Directory { at } => meet_if(
            met,
            !context.in_include,
            Construct::MagicConstant,
            at.start,
        ),
        Expr::Array {
            items: elements,
            ..
        } => items(met, elements.as_slice(), context),
        Expr::Call {
            at,
            name,
            arguments,
        } => {
            let met = library_name(met, name.as_slice(), at.start);
            expressions(met, arguments.as_slice(), context)
        }
        Expr::DynamicCall {
            callee,
            arguments,
            ..
        } => {
            let met = meet(met, Construct::Dynamic, start(callee.get()));
            let met = expression(met, callee.get(), context);
            expressions(met, arguments.as_slice(), context)
        }
        Expr::StaticCall {
            class: named,
            name,
            arguments,
            ..
        } => {
            let met = class(met, named.get(), context);
            let met = member(met, name.get(), context);
            expressions(met, arguments.as_slice(), context)
        }
        Expr::MethodCall {
            object,
            name,
            arguments,
            ..
        } => {
            let met = expression(met, object.get(), context);
            let met = member(met, name.get(), context);
            expressions(met, arguments.as_slice(), context)
        }
        Expr::New {
            class: named,
            arguments,
            ..
        } => {
            let met = class(met, named.get(), context);
            expressions(met, arguments.as_slice(), context)
        }
        Expr::ClassConstant { class: named, .. } | Expr::StaticProperty { class: named, .. } => {
            class(met, named.get(), context)
        }
        Expr::ClassName {
            class: named,
            colons,
            ..
        } => class(
            meet(met, Construct::ClassName, *colons),
            named.get(),
            context,
        ),
        Expr::Paren { inner, .. } => expression(met, inner.get(), context),
        Expr::Isset { paths, .. } => expressions(met, paths.as_slice(), context),
        Expr::Empty { operand, .. } | Expr::ExitWith { operand, .. } => {
            expression(met, operand.get(), context)
        }
        Expr::Path {
            base,
            steps: walked,
            ..
        } => {
            let met = expression(met, base.get(), context);
            steps(met, walked.as_slice(), context)
        }
        Expr::Update { path, .. } => {
            expression(this_written(met, path.get()), path.get(), context)
        }
        Expr::Prefix {
            at,
            operator,
            operand,
        } => prefixed(met, *operator, at.start, operand.get(), context),
        Expr::InstanceOf {
            subject,
            classes: named,
            ..
        } => {
            let met = expression(met, subject.get(), context);
            classes(met, named.as_slice(), context)
        }
        Expr::Run { first, more, .. } => {
            let met = expression(met, first.get(), context);
            operands(met, more.as_slice(), context)
        }
        Expr::Pair { left, right, .. } => {
            let met = expression(met, left.get(), context);
            expression(met, right.get(), context)
        }
        Expr::Ternary {
            test,
            first,
            second,
            ..
        } => {
            let met = expression(met, test.get(), context);
            let met = expression(met, first.get(), context);
            expression(met, second.get(), context)
        }
        Expr::ShortTernary { first, more, .. } => {
            let met = expression(met, first.get(), context);
            expressions(met, more.as_slice(), context)
        }
        Expr::Assign { target, value, .. } => {
            let met = this_written(met, target.get());
            let met = expression(met, target.get(), context);
            expression(met, value.get(), context)
        }
        Expr::AssignReference {
            target,
            source,
            ampersand,
            ..
        } => {
            let met = this_written(met, target.get());
            let met = this_written(met, source.get());
            let met = reference(met, target.get(), source.get(), *ampersand);
            let met = expression(met, target.get(), context);
            expression(met, source.get(), context)
        }
        Expr::Destructure {
            at,
            items: elements,
            value,
        } => {
            let met = meet(met, Construct::Destructure, at.start);
            let met = items(met, elements.as_slice(), context);
            expression(met, value.get(), context)
        }
        Expr::NamedArgument { at, value, .. } => {
            let met = meet(met, Construct::NamedArgument, at.start);
            expression(met, value.get(), context)
        }
    }
}

/// An operand with its prefix operator; an include here is none that is a whole statement.
#[cycle(expression)]
#[tactic(auto, using(crate::proofs::InTurn::in_turn))]
fn prefixed(
    met: Earliest,
    operator: Prefix,
    offset: u32,
    operand: &Expr,
    context: Context<'_>,
) -> Earliest
    ensures { result ≡ earliest met (refused.prefix_refused operator offset (part operand.now) (seen context.entry)) }
{
    match operator {
        Prefix::Include(_) => {
            let met = meet(met, Construct::IncludeExpr, offset);
            include(met, offset, operand, context)
        }
        _ => expression(met, operand, context),
    }
}

/// A `=&`, unless both sides are variables.
fn reference(met: Earliest, target: &Expr, source: &Expr, ampersand: u32) -> Earliest
    ensures { result ≡ earliest met (refused.reference_refused (part target.now) (part source.now) ampersand) }
{
    let is_plain = is_plain_variable(target) && is_plain_variable(source);
    meet_if(met, !is_plain, Construct::RefElement, ampersand)
}

#[cycle(expression)]
#[tactic(auto, using(crate::proofs::ExpressionParts::the_parts, crate::proofs::InTurn::in_turn))]
fn class(met: Earliest, named: &ClassReference, context: Context<'_>) -> Earliest
    ensures { result ≡ earliest met (class_found named.now (seen context.entry)) }
{
    match named {
        ClassReference::ByName { .. } => met,
        ClassReference::SelfClass { at } | ClassReference::Static { at } => {
            meet_if(met, !context.in_class, Construct::ClassContext, at.start)
        }
        ClassReference::Parent { at } => {
            meet_if(met, !context.has_parent, Construct::ClassContext, at.start)
        }
        ClassReference::ByExpression { class, .. } => {
            let met = meet(met, Construct::Dynamic, start(class.get()));
            expression(met, class.get(), context)
        }
    }
}

#[cycle(expression)]
#[tactic(auto, using(crate::proofs::ExpressionParts::the_parts, crate::proofs::InTurn::in_turn))]
fn member(met: Earliest, name: &MemberName, context: Context<'_>) -> Earliest
    ensures { result ≡ earliest met (name_found name.now (seen context.entry)) }
{
    match name {
        MemberName::Named { .. } => met,
        MemberName::Computed { name } => {
            let met = meet(met, Construct::Dynamic, start(name.get()));
            expression(met, name.get(), context)
        }
    }
}

#[cycle(expression)]
#[tactic(auto, using(crate::proofs::ExpressionParts::the_parts, crate::proofs::InTurn::in_turn))]
fn item(met: Earliest, element: &Item, context: Context<'_>) -> Earliest
    ensures { result ≡ earliest met (item_found element.now (seen context.entry)) }
{
    match element {
        Item::Plain { value, .. } => expression(met, value.get(), context),
        Item::Keyed { key, value, .. } => {
            let met = expression(met, key.get(), context);
            expression(met, value.get(), context)
        }
        Item::Reference { at, value } => {
            let met = meet(met, Construct::RefElement, at.start);
            let met = this_written(met, value.get());
            expression(met, value.get(), context)
        }
        Item::KeyedReference {
            key,
            value,
            ampersand,
            ..
        } => {
            let met = meet(met, Construct::RefElement, *ampersand);
            let met = this_written(met, value.get());
            let met = expression(met, key.get(), context);
            expression(met, value.get(), context)
        }
        Item::Hole { .. } => met,
    }
}

#[cycle(expression)]
#[tactic(auto, using(crate::proofs::ExpressionParts::the_parts, crate::proofs::InTurn::in_turn))]
fn step(met: Earliest, step: &Step, context: Context<'_>) -> Earliest
    ensures { result ≡ earliest met (step_found step.now (seen context.entry)) }
{
    match step {
        Step::Index { key, .. } => expression(met, key.get(), context),
        Step::Append { .. } => met,
        Step::Property { name, .. } => member(met, name.get(), context),
    }
}

#[cycle(expression)]
#[tactic(auto, using(crate::proofs::ExpressionParts::the_parts, crate::proofs::InTurn::in_turn))]
fn piece(met: Earliest, piece: &StringPart, context: Context<'_>) -> Earliest
    ensures { result ≡ earliest met (piece_found piece.now (seen context.entry)) }
{
    match piece {
        StringPart::Piece { .. } => met,
        StringPart::Interpolation { value } => expression(met, value.get(), context),
    }
}

/// The earliest of what was met and of what is refused in a list of expressions.
#[cycle(expression)]
#[tactic(auto, using(crate::proofs::InTurn::in_turn))]
pub fn expressions(met: Earliest, exprs: &[Expr], context: Context<'_>) -> Earliest
    ensures { result ≡ earliest met (flat_map (λ x. refused_in x (seen context.entry)) exprs.now) }
{
    let mut met = met;
    for expr in exprs {
        met = expression(met, expr, context);
    }
    met
}

/// The earliest of what was met and of what is refused in the elements of an array.
#[cycle(expression)]
#[tactic(auto, using(crate::proofs::InTurn::in_turn))]
pub fn items(met: Earliest, elements: &[Item], context: Context<'_>) -> Earliest
    ensures { result ≡ earliest met (flat_map (λ x. item_found x (seen context.entry)) elements.now) }
{
    let mut met = met;
    for element in elements {
        met = item(met, element, context);
    }
    met
}

#[cycle(expression)]
#[tactic(auto, using(crate::proofs::InTurn::in_turn))]
fn steps(met: Earliest, steps: &[Step], context: Context<'_>) -> Earliest
    ensures { result ≡ earliest met (flat_map (λ x. step_found x (seen context.entry)) steps.now) }
{
    let mut met = met;
    for one in steps {
        met = step(met, one, context);
    }
    met
}

#[cycle(expression)]
#[tactic(auto, using(crate::proofs::InTurn::in_turn))]
fn pieces(met: Earliest, pieces: &[StringPart], context: Context<'_>) -> Earliest
    ensures { result ≡ earliest met (flat_map (λ x. piece_found x (seen context.entry)) pieces.now) }
{
    let mut met = met;
    for one in pieces {
        met = piece(met, one, context);
    }
    met
}

#[cycle(expression)]
#[tactic(auto, using(crate::proofs::InTurn::in_turn))]
fn classes(met: Earliest, classes: &[ClassReference], context: Context<'_>) -> Earliest
    ensures { result ≡ earliest met (flat_map (λ x. class_found x (seen context.entry)) classes.now) }
{
    let mut met = met;
    for one in classes {
        met = class(met, one, context);
    }
    met
}

#[cycle(expression)]
#[tactic(auto, using(crate::proofs::InTurn::in_turn))]
fn operands(met: Earliest, operands: &[(Binary, Expr)], context: Context<'_>) -> Earliest
    ensures { result ≡ earliest met (flat_map (λ (o : Binary × Expr). refused_in o.1 (seen context.entry)) operands.now) }
{
    let mut met = met;
    for operand in operands {
        met = expression(met, &operand.1, context);
    }
    met
}
