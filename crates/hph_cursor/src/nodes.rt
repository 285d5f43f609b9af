//! Nodes of expressions from their parts, each with its place. Parts are boxed when they come, so that a maker only boxes its own node.

ghost use Rattle.std.specs.Prelude.{◌≡◌, [], ◌∷◌, IfOk};
ghost use Rattle.hph_ast.specs.declared.expr.Expr.TheVariants as e;
ghost use Rattle.hph_ast.specs.declared.expr.ClassReference.TheVariants as c;
ghost use Rattle.hph_ast.specs.Places as places;

use crate::places::{last_class, last_expr, last_operand, last_step, place, span};
use hph_ast::{
    Assignment, At, Binary, ClassReference, Expr, Item, MemberName, Prefix, Step, Update,
};
use sqlite_items::{Boxed, Items};
use std::alloc::{AllocError, Global};

/// A list of one item.
pub fn only<T: Drop>(alloc: Global, item: T) -> Result<Items<T>, AllocError>
    ensures { IfOk result (λ all. all ≡ item ∷ []) }
{
    let mut all = Items::new(alloc);
    all.push(item)?;
    Ok(all)
}

/// The class that an expression gives.
pub fn by_expression(class: Boxed<Expr>) -> ClassReference
    ensures { result ≡ c.ByExpression (places.place class) class }
{
    ClassReference::ByExpression {
        at: place(class.get()),
        class,
    }
}

/// A path of a base and one or more steps.
pub fn path_of(
    alloc: Global,
    base: Boxed<Expr>,
    steps: Items<Step>,
) -> Result<Boxed<Expr>, AllocError>
    ensures { IfOk result (λ r. r ≡ e.Path (places.span (places.place base) (places.last_step (places.place base) steps)) base steps) }
{
    let at = span(
        place(base.get()),
        last_step(place(base.get()), steps.as_slice()),
    );
    Boxed::new(alloc, Expr::Path { at, base, steps })
}

/// An expression with steps; one without is itself.
pub fn with_steps(
    alloc: Global,
    base: Boxed<Expr>,
    steps: Items<Step>,
) -> Result<Boxed<Expr>, AllocError>
    ensures { IfOk result (λ r. r ≡ places.with_steps base steps) }
{
    if steps.is_empty() {
        return Ok(base);
    }
    path_of(alloc, base, steps)
}

/// A path of one step, of this place.
pub fn one_step_of(
    alloc: Global,
    at: At,
    base: Boxed<Expr>,
    step: Step,
) -> Result<Boxed<Expr>, AllocError>
    ensures { IfOk result (λ r. r ≡ e.Path at base (step ∷ [])) }
{
    let steps = only(alloc, step)?;
    Boxed::new(alloc, Expr::Path { at, base, steps })
}

/// An argument with a name, which begins at a place.
pub fn named_argument_of(
    alloc: Global,
    first: At,
    name: Items<u8>,
    value: Boxed<Expr>,
) -> Result<Boxed<Expr>, AllocError>
    ensures { IfOk result (λ r. r ≡ e.NamedArgument (places.span first (places.place value)) name value) }
{
    let at = span(first, place(value.get()));
    Boxed::new(alloc, Expr::NamedArgument { at, name, value })
}

/// A parenthesis.
pub fn paren_of(alloc: Global, at: At, inner: Boxed<Expr>) -> Result<Boxed<Expr>, AllocError>
    ensures { IfOk result (λ r. r ≡ e.Paren at inner) }
{
    Boxed::new(alloc, Expr::Paren { at, inner })
}

/// `empty(..)`
pub fn empty_of(alloc: Global, at: At, operand: Boxed<Expr>) -> Result<Boxed<Expr>, AllocError>
    ensures { IfOk result (λ r. r ≡ e.Empty at operand) }
{
    Boxed::new(alloc, Expr::Empty { at, operand })
}

/// `exit(..)` with an operand.
pub fn exit_with_of(alloc: Global, at: At, operand: Boxed<Expr>) -> Result<Boxed<Expr>, AllocError>
    ensures { IfOk result (λ r. r ≡ e.ExitWith at operand) }
{
    Boxed::new(alloc, Expr::ExitWith { at, operand })
}

/// A call of a method, which ends at a place.
pub fn method_call_of(
    alloc: Global,
    object: Boxed<Expr>,
    name: Boxed<MemberName>,
    arguments: Items<Expr>,
    last: At,
) -> Result<Boxed<Expr>, AllocError>
    ensures { IfOk result (λ r. r ≡ e.MethodCall (places.span (places.place object) last) object name arguments) }
{
    let at = span(place(object.get()), last);
    Boxed::new(
        alloc,
        Expr::MethodCall {
            at,
            object,
            name,
            arguments,
        },
    )
}

/// A call of an expression, which ends at a place.
pub fn dynamic_call_of(
    alloc: Global,
    callee: Boxed<Expr>,
    arguments: Items<Expr>,
    last: At,
) -> Result<Boxed<Expr>, AllocError>
    ensures { IfOk result (λ r. r ≡ e.DynamicCall (places.span (places.place callee) last) callee arguments) }
{
    let at = span(place(callee.get()), last);
    Boxed::new(
        alloc,
        Expr::DynamicCall {
            at,
            callee,
            arguments,
        },
    )
}

/// `++` or `--` before a path, which begins at a place.
pub fn pre_update_of(
    alloc: Global,
    first: At,
    form: Update,
    path: Boxed<Expr>,
) -> Result<Boxed<Expr>, AllocError>
    ensures { IfOk result (λ r. r ≡ e.Update (places.span first (places.place path)) form path) }
{
    let at = span(first, place(path.get()));
    Boxed::new(alloc, Expr::Update { at, form, path })
}

/// `++` or `--` behind a path, which ends at a place.
pub fn post_update_of(
    alloc: Global,
    path: Boxed<Expr>,
    form: Update,
    last: At,
) -> Result<Boxed<Expr>, AllocError>
    ensures { IfOk result (λ r. r ≡ e.Update (places.span (places.place path) last) form path) }
{
    let at = span(place(path.get()), last);
    Boxed::new(alloc, Expr::Update { at, form, path })
}

/// A prefix operator, which begins at a place.
pub fn prefix_of(
    alloc: Global,
    first: At,
    operator: Prefix,
    operand: Boxed<Expr>,
) -> Result<Boxed<Expr>, AllocError>
    ensures { IfOk result (λ r. r ≡ e.Prefix (places.span first (places.place operand)) operator operand) }
{
    let at = span(first, place(operand.get()));
    Boxed::new(
        alloc,
        Expr::Prefix {
            at,
            operator,
            operand,
        },
    )
}

/// An assignment.
pub fn assign_of(
    alloc: Global,
    operator: Assignment,
    target: Boxed<Expr>,
    value: Boxed<Expr>,
) -> Result<Boxed<Expr>, AllocError>
    ensures { IfOk result (λ r. r ≡ e.Assign (places.span (places.place target) (places.place value)) operator target value) }
{
    let at = span(place(target.get()), place(value.get()));
    Boxed::new(
        alloc,
        Expr::Assign {
            at,
            operator,
            target,
            value,
        },
    )
}

/// `target = &source`, and the place of its `&`.
pub fn assign_reference_of(
    alloc: Global,
    target: Boxed<Expr>,
    source: Boxed<Expr>,
    ampersand: u32,
) -> Result<Boxed<Expr>, AllocError>
    ensures { IfOk result (λ r. r ≡ e.AssignReference (places.span (places.place target) (places.place source)) target source ampersand) }
{
    let at = span(place(target.get()), place(source.get()));
    Boxed::new(
        alloc,
        Expr::AssignReference {
            at,
            target,
            source,
            ampersand,
        },
    )
}

/// A destructuring, which begins at a place.
pub fn destructure_of(
    alloc: Global,
    first: At,
    items: Items<Item>,
    value: Boxed<Expr>,
) -> Result<Boxed<Expr>, AllocError>
    ensures { IfOk result (λ r. r ≡ e.Destructure (places.span first (places.place value)) items value) }
{
    let at = span(first, place(value.get()));
    Boxed::new(alloc, Expr::Destructure { at, items, value })
}

/// Operators of one level that group to the left.
pub fn run_of(
    alloc: Global,
    first: Boxed<Expr>,
    more: Items<(Binary, Expr)>,
) -> Result<Boxed<Expr>, AllocError>
    ensures { IfOk result (λ r. r ≡ e.Run (places.span (places.place first) (places.last_operand (places.place first) more)) first more) }
{
    let at = span(
        place(first.get()),
        last_operand(place(first.get()), more.as_slice()),
    );
    Boxed::new(alloc, Expr::Run { at, first, more })
}

/// An operator that groups to the right or not at all.
pub fn pair_of(
    alloc: Global,
    operator: Binary,
    left: Boxed<Expr>,
    right: Boxed<Expr>,
) -> Result<Boxed<Expr>, AllocError>
    ensures { IfOk result (λ r. r ≡ e.Pair (places.span (places.place left) (places.place right)) operator left right) }
{
    let at = span(place(left.get()), place(right.get()));
    Boxed::new(
        alloc,
        Expr::Pair {
            at,
            operator,
            left,
            right,
        },
    )
}

/// `test ? first : second`
pub fn ternary_of(
    alloc: Global,
    test: Boxed<Expr>,
    first: Boxed<Expr>,
    second: Boxed<Expr>,
) -> Result<Boxed<Expr>, AllocError>
    ensures { IfOk result (λ r. r ≡ e.Ternary (places.span (places.place test) (places.place second)) test first second) }
{
    let at = span(place(test.get()), place(second.get()));
    Boxed::new(
        alloc,
        Expr::Ternary {
            at,
            test,
            first,
            second,
        },
    )
}

/// A chain of `?:`.
pub fn short_ternary_of(
    alloc: Global,
    first: Boxed<Expr>,
    more: Items<Expr>,
) -> Result<Boxed<Expr>, AllocError>
    ensures { IfOk result (λ r. r ≡ e.ShortTernary (places.span (places.place first) (places.last_expr (places.place first) more)) first more) }
{
    let at = span(
        place(first.get()),
        last_expr(place(first.get()), more.as_slice()),
    );
    Boxed::new(alloc, Expr::ShortTernary { at, first, more })
}

/// A chain of `instanceof`.
pub fn instance_of_of(
    alloc: Global,
    subject: Boxed<Expr>,
    classes: Items<ClassReference>,
) -> Result<Boxed<Expr>, AllocError>
    ensures { IfOk result (λ r. r ≡ e.InstanceOf (places.span (places.place subject) (places.last_class (places.place subject) classes)) subject classes) }
{
    let at = span(
        place(subject.get()),
        last_class(place(subject.get()), classes.as_slice()),
    );
    Boxed::new(
        alloc,
        Expr::InstanceOf {
            at,
            subject,
            classes,
        },
    )
}
