//! Expressions as PHP text in which each operator stands in parentheses of its own. A parenthesis of the source is one more.

use crate::operators::{assignment, binary, prefix};
use hph_ast::{
    ArrayForm, Binary, ClassReference, Expr, Item, MemberName, Step, StringPart, Update,
};
use std::alloc::{AllocError, Global};

fn spelled(out: &mut String, bytes: &[u8]) -> Result<(), AllocError> {
    for byte in bytes {
        out.push(char::from(*byte))?;
    }
    Ok(())
}

fn number(alloc: Global, out: &mut String, value: u64) -> Result<(), AllocError> {
    let digits = format!(in alloc; "{value}")?;
    out.push_str(digits.as_str())
}

/// Bytes in quotes.
fn quoted(out: &mut String, bytes: &[u8]) -> Result<(), AllocError> {
    out.push_str("'")?;
    spelled(out, bytes)?;
    out.push_str("'")
}

fn variable(out: &mut String, name: &[u8]) -> Result<(), AllocError> {
    out.push_str("$")?;
    spelled(out, name)
}

fn opened(out: &mut String, count: usize) -> Result<(), AllocError> {
    for _parenthesis in 0..count {
        out.push_str("(")?;
    }
    Ok(())
}

/// An operator between spaces.
fn spaced(out: &mut String, operator: &str) -> Result<(), AllocError> {
    out.push_str(" ")?;
    out.push_str(operator)?;
    out.push_str(" ")
}

/// An expression; nothing of what is nested deeper than `depth`.
#[cycle(print)]
pub fn print(alloc: Global, depth: usize, out: &mut String, expr: &Expr) -> Result<(), AllocError> {
    if depth == 0 {
        return Ok(());
    }
    let depth = depth - 1;
    match expr {
        Expr::Int { value, .. } => number(alloc, out, *value),
        Expr::Text { bytes, .. } => quoted(out, bytes.as_slice()),
        Expr::Variable { name, .. } => variable(out, name.as_slice()),
        Expr::Constant { name, .. } => spelled(out, name.as_slice()),
        Expr::Directory { .. } => out.push_str("__DIR__"),
        Expr::Exit { .. } => out.push_str("exit"),
        Expr::Interpolated { .. }
        | Expr::Array { .. }
        | Expr::Paren { .. }
        | Expr::Isset { .. }
        | Expr::Empty { .. }
        | Expr::ExitWith { .. } => print_primary(alloc, depth, out, expr),
        Expr::Call { .. }
        | Expr::DynamicCall { .. }
        | Expr::StaticCall { .. }
        | Expr::MethodCall { .. }
        | Expr::New { .. }
        | Expr::NamedArgument { .. } => print_call(alloc, depth, out, expr),
        Expr::ClassConstant { .. }
        | Expr::ClassName { .. }
        | Expr::StaticProperty { .. }
        | Expr::Path { .. } => print_member(alloc, depth, out, expr),
        _ => {
            out.push_str("(")?;
            print_operation(alloc, depth, out, expr)?;
            out.push_str(")")
        }
    }
}

#[cycle(print)]
fn print_primary(
    alloc: Global,
    depth: usize,
    out: &mut String,
    expr: &Expr,
) -> Result<(), AllocError> {
    if depth == 0 {
        return Ok(());
    }
    let depth = depth - 1;
    match expr {
        Expr::Interpolated { parts, .. } => {
            out.push_str("\"")?;
            print_parts(alloc, depth, out, parts.as_slice())?;
            out.push_str("\"")
        }
        Expr::Array { form, items, .. } => {
            let (opening, closing) = match form {
                ArrayForm::Short | ArrayForm::Targets => ("[", "]"),
                ArrayForm::Long => ("array(", ")"),
            };
            out.push_str(opening)?;
            print_items(alloc, depth, out, items.as_slice())?;
            out.push_str(closing)
        }
        Expr::Paren { inner, .. } => print_around(alloc, depth, out, "(", inner.get()),
        Expr::Isset { paths, .. } => {
            out.push_str("isset")?;
            print_list(alloc, depth, out, paths.as_slice())
        }
        Expr::Empty { operand, .. } => print_around(alloc, depth, out, "empty(", operand.get()),
        Expr::ExitWith { operand, .. } => print_around(alloc, depth, out, "exit(", operand.get()),
        _ => Ok(()),
    }
}

#[cycle(print)]
fn print_around(
    alloc: Global,
    depth: usize,
    out: &mut String,
    opening: &str,
    expr: &Expr,
) -> Result<(), AllocError> {
    if depth == 0 {
        return Ok(());
    }
    let depth = depth - 1;
    out.push_str(opening)?;
    print(alloc, depth, out, expr)?;
    out.push_str(")")
}

#[cycle(print)]
fn print_call(
    alloc: Global,
    depth: usize,
    out: &mut String,
    expr: &Expr,
) -> Result<(), AllocError> {
    if depth == 0 {
        return Ok(());
    }
    let depth = depth - 1;
    match expr {
        Expr::Call {
            name,
            arguments,
            ..
        } => {
            spelled(out, name.as_slice())?;
            print_list(alloc, depth, out, arguments.as_slice())
        }
        Expr::DynamicCall {
            callee,
            arguments,
            ..
        } => {
            print(alloc, depth, out, callee.get())?;
            print_list(alloc, depth, out, arguments.as_slice())
        }
        Expr::StaticCall {
            class,
            name,
            arguments,
            ..
        } => {
            print_class(alloc, depth, out, class.get())?;
            out.push_str("::")?;
            print_name(alloc, depth, out, name.get())?;
            print_list(alloc, depth, out, arguments.as_slice())
        }
        Expr::MethodCall {
            object,
            name,
            arguments,
            ..
        } => {
            print(alloc, depth, out, object.get())?;
            out.push_str("->")?;
            print_name(alloc, depth, out, name.get())?;
            print_list(alloc, depth, out, arguments.as_slice())
        }
        Expr::New {
            class,
            arguments,
            ..
        } => {
            out.push_str("new ")?;
            print_class(alloc, depth, out, class.get())?;
            print_list(alloc, depth, out, arguments.as_slice())
        }
        Expr::NamedArgument { name, value, .. } => {
            spelled(out, name.as_slice())?;
            out.push_str(": ")?;
            print(alloc, depth, out, value.get())
        }
        _ => Ok(()),
    }
}

#[cycle(print)]
fn print_member(
    alloc: Global,
    depth: usize,
    out: &mut String,
    expr: &Expr,
) -> Result<(), AllocError> {
    if depth == 0 {
        return Ok(());
    }
    let depth = depth - 1;
    match expr {
        Expr::ClassConstant { class, name, .. } => {
            print_class(alloc, depth, out, class.get())?;
            out.push_str("::")?;
            spelled(out, name.as_slice())
        }
        Expr::ClassName { class, .. } => {
            print_class(alloc, depth, out, class.get())?;
            out.push_str("::class")
        }
        Expr::StaticProperty { class, name, .. } => {
            print_class(alloc, depth, out, class.get())?;
            out.push_str("::")?;
            variable(out, name.as_slice())
        }
        Expr::Path { base, steps, .. } => {
            print(alloc, depth, out, base.get())?;
            print_steps(alloc, depth, out, steps.as_slice())
        }
        _ => Ok(()),
    }
}

#[cycle(print)]
fn print_operation(
    alloc: Global,
    depth: usize,
    out: &mut String,
    expr: &Expr,
) -> Result<(), AllocError> {
    if depth == 0 {
        return Ok(());
    }
    let depth = depth - 1;
    match expr {
        Expr::Update { form, path, .. } => print_update(alloc, depth, out, *form, path.get()),
        Expr::Prefix {
            operator,
            operand,
            ..
        } => {
            out.push_str(prefix(*operator))?;
            print(alloc, depth, out, operand.get())
        }
        Expr::InstanceOf {
            subject,
            classes,
            ..
        } => {
            opened(out, classes.len().saturating_sub(1))?;
            print(alloc, depth, out, subject.get())?;
            print_classes(alloc, depth, out, classes.as_slice())
        }
        Expr::Run { first, more, .. } => {
            opened(out, more.len().saturating_sub(1))?;
            print(alloc, depth, out, first.get())?;
            print_operands(alloc, depth, out, more.as_slice())
        }
        Expr::Pair {
            operator,
            left,
            right,
            ..
        } => print_pair(
            alloc,
            depth,
            out,
            left.get(),
            binary(*operator),
            right.get(),
        ),
        Expr::Assign {
            operator,
            target,
            value,
            ..
        } => print_pair(
            alloc,
            depth,
            out,
            target.get(),
            assignment(*operator),
            value.get(),
        ),
        Expr::AssignReference { target, source, .. } => {
            print(alloc, depth, out, target.get())?;
            out.push_str(" = &")?;
            print(alloc, depth, out, source.get())
        }
        Expr::Destructure { items, value, .. } => {
            out.push_str("[")?;
            print_items(alloc, depth, out, items.as_slice())?;
            out.push_str("] = ")?;
            print(alloc, depth, out, value.get())
        }
        _ => print_choice(alloc, depth, out, expr),
    }
}

#[cycle(print)]
fn print_choice(
    alloc: Global,
    depth: usize,
    out: &mut String,
    expr: &Expr,
) -> Result<(), AllocError> {
    if depth == 0 {
        return Ok(());
    }
    let depth = depth - 1;
    match expr {
        Expr::Ternary {
            test,
            first,
            second,
            ..
        } => {
            print(alloc, depth, out, test.get())?;
            out.push_str(" ? ")?;
            print(alloc, depth, out, first.get())?;
            out.push_str(" : ")?;
            print(alloc, depth, out, second.get())
        }
        Expr::ShortTernary { first, more, .. } => {
            opened(out, more.len().saturating_sub(1))?;
            print(alloc, depth, out, first.get())?;
            print_others(alloc, depth, out, more.as_slice())
        }
        _ => Ok(()),
    }
}

#[cycle(print)]
fn print_update(
    alloc: Global,
    depth: usize,
    out: &mut String,
    form: Update,
    path: &Expr,
) -> Result<(), AllocError> {
    if depth == 0 {
        return Ok(());
    }
    let depth = depth - 1;
    let (before, behind) = match form {
        Update::PreIncrement => ("++", ""),
        Update::PreDecrement => ("--", ""),
        Update::PostIncrement => ("", "++"),
        Update::PostDecrement => ("", "--"),
    };
    out.push_str(before)?;
    print(alloc, depth, out, path)?;
    out.push_str(behind)
}

#[cycle(print)]
fn print_pair(
    alloc: Global,
    depth: usize,
    out: &mut String,
    left: &Expr,
    operator: &str,
    right: &Expr,
) -> Result<(), AllocError> {
    if depth == 0 {
        return Ok(());
    }
    let depth = depth - 1;
    print(alloc, depth, out, left)?;
    spaced(out, operator)?;
    print(alloc, depth, out, right)
}

/// Each operand closes a parenthesis but for the last.
#[cycle(print)]
fn print_operands(
    alloc: Global,
    depth: usize,
    out: &mut String,
    operands: &[(Binary, Expr)],
) -> Result<(), AllocError> {
    if depth == 0 {
        return Ok(());
    }
    let depth = depth - 1;
    let mut first = true;
    for operand in operands {
        if !first {
            out.push_str(")")?;
        }
        first = false;
        out.push_str(" ")?;
        out.push_str(binary(operand.0))?;
        out.push_str(" ")?;
        print(alloc, depth, out, &operand.1)?;
    }
    Ok(())
}

#[cycle(print)]
fn print_others(
    alloc: Global,
    depth: usize,
    out: &mut String,
    others: &[Expr],
) -> Result<(), AllocError> {
    if depth == 0 {
        return Ok(());
    }
    let depth = depth - 1;
    let mut first = true;
    for other in others {
        if !first {
            out.push_str(")")?;
        }
        first = false;
        out.push_str(" ?: ")?;
        print(alloc, depth, out, other)?;
    }
    Ok(())
}

#[cycle(print)]
fn print_classes(
    alloc: Global,
    depth: usize,
    out: &mut String,
    classes: &[ClassReference],
) -> Result<(), AllocError> {
    if depth == 0 {
        return Ok(());
    }
    let depth = depth - 1;
    let mut first = true;
    for class in classes {
        if !first {
            out.push_str(")")?;
        }
        first = false;
        out.push_str(" instanceof ")?;
        print_class(alloc, depth, out, class)?;
    }
    Ok(())
}

#[cycle(print)]
fn print_class(
    alloc: Global,
    depth: usize,
    out: &mut String,
    class: &ClassReference,
) -> Result<(), AllocError> {
    if depth == 0 {
        return Ok(());
    }
    let depth = depth - 1;
    match class {
        ClassReference::ByName { name, .. } => spelled(out, name.as_slice()),
        ClassReference::SelfClass { .. } => out.push_str("self"),
        ClassReference::Parent { .. } => out.push_str("parent"),
        ClassReference::Static { .. } => out.push_str("static"),
        ClassReference::ByExpression { class, .. } => print(alloc, depth, out, class.get()),
    }
}

#[cycle(print)]
fn print_name(
    alloc: Global,
    depth: usize,
    out: &mut String,
    name: &MemberName,
) -> Result<(), AllocError> {
    if depth == 0 {
        return Ok(());
    }
    let depth = depth - 1;
    match name {
        MemberName::Named { name } => spelled(out, name.as_slice()),
        MemberName::Computed { name } => {
            out.push_str("{")?;
            print(alloc, depth, out, name.get())?;
            out.push_str("}")
        }
    }
}

#[cycle(print)]
fn print_steps(
    alloc: Global,
    depth: usize,
    out: &mut String,
    steps: &[Step],
) -> Result<(), AllocError> {
    if depth == 0 {
        return Ok(());
    }
    let depth = depth - 1;
    for step in steps {
        match step {
            Step::Append { .. } => out.push_str("[]")?,
            Step::Index { key, .. } => {
                out.push_str("[")?;
                print(alloc, depth, out, key.get())?;
                out.push_str("]")?;
            }
            Step::Property { name, .. } => {
                out.push_str("->")?;
                print_name(alloc, depth, out, name.get())?;
            }
        }
    }
    Ok(())
}

/// What stands in parentheses, between commas.
#[cycle(print)]
fn print_list(
    alloc: Global,
    depth: usize,
    out: &mut String,
    exprs: &[Expr],
) -> Result<(), AllocError> {
    if depth == 0 {
        return Ok(());
    }
    let depth = depth - 1;
    out.push_str("(")?;
    let mut first = true;
    for expr in exprs {
        if !first {
            out.push_str(", ")?;
        }
        first = false;
        print(alloc, depth, out, expr)?;
    }
    out.push_str(")")
}

#[cycle(print)]
fn print_items(
    alloc: Global,
    depth: usize,
    out: &mut String,
    items: &[Item],
) -> Result<(), AllocError> {
    if depth == 0 {
        return Ok(());
    }
    let depth = depth - 1;
    let mut first = true;
    for item in items {
        if !first {
            out.push_str(", ")?;
        }
        first = false;
        print_item(alloc, depth, out, item)?;
    }
    Ok(())
}

#[cycle(print)]
fn print_item(
    alloc: Global,
    depth: usize,
    out: &mut String,
    item: &Item,
) -> Result<(), AllocError> {
    if depth == 0 {
        return Ok(());
    }
    let depth = depth - 1;
    match item {
        Item::Plain { value, .. } => print(alloc, depth, out, value.get()),
        Item::Keyed { key, value, .. } => print_pair(
            alloc,
            depth,
            out,
            key.get(),
            "=>",
            value.get(),
        ),
        Item::Reference { value, .. } => {
            out.push_str("&")?;
            print(alloc, depth, out, value.get())
        }
        Item::KeyedReference { key, value, .. } => {
            print(alloc, depth, out, key.get())?;
            out.push_str(" => &")?;
            print(alloc, depth, out, value.get())
        }
        Item::Hole { .. } => Ok(()),
    }
}

#[cycle(print)]
fn print_parts(
    alloc: Global,
    depth: usize,
    out: &mut String,
    parts: &[StringPart],
) -> Result<(), AllocError> {
    if depth == 0 {
        return Ok(());
    }
    let depth = depth - 1;
    for part in parts {
        match part {
            StringPart::Piece { bytes, .. } => spelled(out, bytes.as_slice())?,
            StringPart::Interpolation { value } => {
                out.push_str("{")?;
                print(alloc, depth, out, value.get())?;
                out.push_str("}")?;
            }
        }
    }
    Ok(())
}
