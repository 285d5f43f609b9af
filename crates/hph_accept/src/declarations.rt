//! Constructs of what statements declare, bind, leave and unset.
ghost use Rattle.std.specs.Prelude.{◌≡◌, ◌++◌, flat_map, codes};
ghost use Rattle.hph_ast.specs.declared.expr.Expr.{out-Expr};
ghost use Rattle.hph_ast.specs.declared.stmt.StaticVariable.{StaticVariable};
ghost use Rattle.hph_ast.specs.declared.class.ConstantItem.{ConstantItem};
ghost use Rattle.hph_ast.specs.declared.class.PropertyItem.{PropertyItem};
ghost use Rattle.hph_ast.specs.declared.expr.Step.{out-Step};
ghost use Rattle.hph_ast.specs.Bytes.{begins};
ghost use Rattle.hph_ast.specs.Shapes.{is_property_at};
ghost use Rattle.hph_ast.specs.RefusedExpressions.{refused_in};
ghost use Rattle.hph_ast.specs.RefusedStatements as refused;
ghost use Rattle.hph_ast.specs.RefusedStatements.{maybe};
ghost use Rattle.hph_accept.specs.Order.{earliest};
ghost use Rattle.hph_accept.specs.Enclosed.{seen};

use crate::context::Context;
use crate::earliest::{Earliest, meet, meet_if};
use crate::expressions::{expression, items, this_outside, this_written};
use crate::names::is_word;
use crate::shapes::{is_this_name, start};
use hph_ast::{
    At, ConstantItem, Construct, DeclaredType, Expr, ForeachTarget, Identifier, Param,
    PropertyItem, StaticVariable, Step,
};
use sqlite_items::Boxed;

/// A variable that is bound: `$this` may not be.
#[tactic(auto, using(crate::proofs::InTurn::in_turn))]
fn bound(met: Earliest, name: &Identifier, context: Context<'_>) -> Earliest
    ensures { result ≡ earliest met (refused.bound name.now (seen context.entry)) }
{
    let met = this_outside(met, name.spelled.as_slice(), name.start, context);
    let is_this = is_this_name(name.spelled.as_slice());
    meet_if(met, is_this, Construct::ThisWrite, name.start)
}

/// The earliest of what was met and of what is refused in variables that are bound.
#[tactic(auto, using(crate::proofs::InTurn::in_turn))]
pub fn all_bound(met: Earliest, names: &[Identifier], context: Context<'_>) -> Earliest
    ensures { result ≡ earliest met (flat_map (λ x. refused.bound x (seen context.entry)) names.now) }
{
    let mut met = met;
    for name in names {
        met = bound(met, name, context);
    }
    met
}

/// A variable that may be bound.
pub fn maybe_bound(met: Earliest, name: &Option<Identifier>, context: Context<'_>) -> Earliest
    ensures { result ≡ earliest met (maybe refused.bound name.now (seen context.entry)) }
{
    match name {
        Some(name) => bound(met, name, context),
        None => met,
    }
}

/// An expression that may be there.
pub fn maybe_expression(
    met: Earliest,
    value: &Option<Boxed<Expr>>,
    context: Context<'_>,
) -> Earliest
    ensures { result ≡ earliest met (maybe refused_in value.now (seen context.entry)) }
{
    match value {
        Some(value) => expression(met, value.get(), context),
        None => met,
    }
}

/// A declared type that may be there.
pub fn maybe_type(met: Earliest, ty: &Option<DeclaredType>, context: Context<'_>) -> Earliest
    ensures { result ≡ earliest met (maybe refused.type_refused ty.now (seen context.entry)) }
{
    match ty {
        Some(ty) => meet(met, Construct::TypeDeclared, ty.at.start),
        None => met,
    }
}

#[tactic(auto, using(crate::proofs::InTurn::in_turn))]
fn parameter(met: Earliest, param: &Param, context: Context<'_>) -> Earliest
    ensures { result ≡ earliest met (refused.param_refused param.now (seen context.entry)) }
{
    let met = maybe_type(met, &param.ty, context);
    let met = bound(met, &param.name, context);
    maybe_expression(met, &param.default, context)
}

/// The earliest of what was met and of what is refused in parameters, each by itself.
#[tactic(auto, using(crate::proofs::InTurn::in_turn))]
pub fn parameters(met: Earliest, params: &[Param], context: Context<'_>) -> Earliest
    ensures { result ≡ earliest met (flat_map (λ x. refused.param_refused x (seen context.entry)) params.now) }
{
    let mut met = met;
    for param in params {
        met = parameter(met, param, context);
    }
    met
}

/// Constants and their values.
#[tactic(auto, using(crate::proofs::InTurn::in_turn))]
pub fn constants(met: Earliest, constants: &[ConstantItem], context: Context<'_>) -> Earliest
    ensures { result ≡ earliest met (flat_map (λ (i : ConstantItem). refused_in i.value (seen context.entry)) constants.now) }
{
    let mut met = met;
    for constant in constants {
        met = expression(met, constant.value.get(), context);
    }
    met
}

/// Properties and their initial values.
#[tactic(auto, using(crate::proofs::InTurn::in_turn))]
pub fn properties(met: Earliest, properties: &[PropertyItem], context: Context<'_>) -> Earliest
    ensures { result ≡ earliest met (flat_map (λ (i : PropertyItem). maybe refused_in i.value (seen context.entry)) properties.now) }
{
    let mut met = met;
    for property in properties {
        met = maybe_expression(met, &property.value, context);
    }
    met
}

#[tactic(auto, using(crate::proofs::InTurn::in_turn))]
fn static_variable(met: Earliest, variable: &StaticVariable, context: Context<'_>) -> Earliest
    ensures { result ≡ earliest met (refused.bound variable.now.name (seen context.entry) ++ maybe refused_in variable.now.value (seen context.entry)) }
{
    let met = bound(met, &variable.name, context);
    maybe_expression(met, &variable.value, context)
}

/// Static variables and their initial values.
#[tactic(auto, using(crate::proofs::InTurn::in_turn))]
pub fn static_variables(
    met: Earliest,
    variables: &[StaticVariable],
    context: Context<'_>,
) -> Earliest
    ensures { result ≡ earliest met (flat_map (λ (v : StaticVariable). refused.bound v.name (seen context.entry) ++ maybe refused_in v.value (seen context.entry)) variables.now) }
{
    let mut met = met;
    for variable in variables {
        met = static_variable(met, variable, context);
    }
    met
}

/// Static variables stand in functions that are no methods.
pub fn static_place(met: Earliest, at: At, context: Context<'_>) -> Earliest
    ensures { result ≡ earliest met (refused.static_place at (seen context.entry)) }
{
    let is_refused = !context.in_function || context.in_class;
    meet_if(met, is_refused, Construct::StaticPlace, at.start)
}

/// Whether so many loops and switches, or one, aren't round a node.
fn levels_are_bad(levels: Option<u64>, context: Context<'_>) -> bool
    ensures { result ≡ refused.levels_are_bad (seen context.entry).loops levels }
{
    match levels {
        None => context.loops.are_fewer(1),
        Some(levels) => levels == 0 || context.loops.are_fewer(levels),
    }
}

/// A `break` or `continue` of too many levels, or of none.
pub fn bad_break(met: Earliest, at: At, levels: Option<u64>, context: Context<'_>) -> Earliest
    ensures { result ≡ earliest met (refused.bad_break at levels (seen context.entry)) }
{
    let is_refused = levels_are_bad(levels, context);
    meet_if(met, is_refused, Construct::BadBreak, at.start)
}

fn is_property_step(step: &Step) -> bool
    ensures { result ≡ is_property_at (out-Step step.now) }
{
    matches!(step, Step::Property { .. })
}

fn ends_with_property(steps: &[Step]) -> bool
    ensures { result ≡ refused.last_is_property steps.now }
{
    match steps.last() {
        Some(step) => is_property_step(step),
        None => false,
    }
}

fn is_property(expr: &Expr) -> bool
    ensures { result ≡ refused.is_property (out-Expr expr.now) }
{
    match expr {
        Expr::Path { steps, .. } => ends_with_property(steps.as_slice()),
        Expr::StaticProperty { .. } => true,
        _ => false,
    }
}

#[tactic(auto, using(crate::proofs::InTurn::in_turn))]
fn unset_path(met: Earliest, path: &Expr, context: Context<'_>) -> Earliest
    ensures { result ≡ earliest met (refused.unset_refused path.now (seen context.entry)) }
{
    let met = meet_if(
        met,
        is_property(path),
        Construct::UnsetProperty,
        start(path),
    );
    let met = this_written(met, path);
    expression(met, path, context)
}

/// The earliest of what was met and of what is refused in paths that are unset.
#[tactic(auto, using(crate::proofs::InTurn::in_turn))]
pub fn unset_paths(met: Earliest, paths: &[Expr], context: Context<'_>) -> Earliest
    ensures { result ≡ earliest met (flat_map (λ x. refused.unset_refused x (seen context.entry)) paths.now) }
{
    let mut met = met;
    for path in paths {
        met = unset_path(met, path, context);
    }
    met
}

/// What a turn of `foreach` sets to the element.
#[tactic(auto, using(crate::proofs::InTurn::in_turn))]
pub fn foreach_target(met: Earliest, target: &ForeachTarget, context: Context<'_>) -> Earliest
    ensures { result ≡ earliest met (refused.target_refused target.now (seen context.entry)) }
{
    match target {
        ForeachTarget::Variable { name } => bound(met, name, context),
        ForeachTarget::Reference { source, ampersand } => {
            let met = meet(met, Construct::RefElement, *ampersand);
            expression(this_written(met, source.get()), source.get(), context)
        }
        ForeachTarget::Destructure {
            bracket,
            items: elements,
        } => {
            let met = meet(met, Construct::Destructure, *bracket);
            items(met, elements.as_slice(), context)
        }
    }
}

fn begins_with_underscores(name: &[u8]) -> bool
    ensures { result ≡ begins (codes "__") name.now }
{
    matches!(name, [b'_', b'_', ..])
}

/// A method whose name begins with `__`, but for the constructor.
pub fn magic_method(met: Earliest, name: &Identifier) -> Earliest
    ensures { result ≡ earliest met (refused.magic_method name.now) }
{
    let spelled = name.spelled.as_slice();
    let is_magic = begins_with_underscores(spelled) && !is_word(b"__construct", spelled);
    meet_if(met, is_magic, Construct::MagicMethod, name.start)
}
