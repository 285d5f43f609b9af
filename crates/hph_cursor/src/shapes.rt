//! What may be read, written, called and asked for a member: PHP manual, Variables and Functions.

ghost use Rattle.std.specs.Prelude.{◌≡◌};
ghost use Rattle.std.specs.List.{list_any};
ghost use Rattle.hph_ast.specs.Terminals.{is_class_word};
ghost use Rattle.hph_ast.specs.Bytes as bytes;
ghost use Rattle.hph_ast.specs.Shapes as shapes;
ghost use Rattle.hph_ast.specs.declared.expr.Expr.{out-Expr};

use hph_ast::{ArrayForm, Expr, Item, Step};

fn is_append(step: &Step) -> bool
    ensures { result ≡ shapes.is_append step.now }
{
    matches!(step, Step::Append { .. })
}

fn appends(steps: &[Step]) -> bool
    ensures { result ≡ list_any shapes.is_append steps.now }
{
    for step in steps {
        if is_append(step) {
            return true;
        }
    }
    false
}

/// Whether none of an expression's steps is `[]`.
pub fn is_read(expr: &Expr) -> bool
    ensures { result ≡ shapes.is_read expr.now }
{
    match expr {
        Expr::Path { steps, .. } => !appends(steps.as_slice()),
        _ => true,
    }
}

/// Whether an expression stands as an element of a destructuring alone.
pub fn is_written_only(expr: &Expr) -> bool
    ensures { result ≡ shapes.is_written_only expr.now }
{
    match expr {
        Expr::Array { form, .. } => matches!(form, ArrayForm::Targets),
        _ => !is_read(expr),
    }
}

/// Whether an element stands in a destructuring alone.
pub fn is_target(item: &Item) -> bool
    ensures { result ≡ shapes.is_target item.now }
{
    match item {
        Item::Plain { value, .. } | Item::Keyed { value, .. } => is_written_only(value.get()),
        Item::Reference { .. } | Item::KeyedReference { .. } => false,
        Item::Hole { .. } => true,
    }
}

fn begins_with_property(steps: &[Step]) -> bool
    ensures { result ≡ shapes.begins_with_property steps.now }
{
    match steps {
        [Step::Property { .. }, ..] => true,
        _ => false,
    }
}

fn is_variable(expr: &Expr) -> bool
    ensures { result ≡ shapes.is_variable_at (out-Expr expr.now) }
{
    matches!(expr, Expr::Variable { .. } | Expr::StaticProperty { .. })
}

fn is_value_base(expr: &Expr) -> bool
    ensures { result ≡ shapes.is_value_base_at (out-Expr expr.now) }
{
    matches!(
        expr,
        Expr::Call { .. }
            | Expr::DynamicCall { .. }
            | Expr::StaticCall { .. }
            | Expr::MethodCall { .. }
            | Expr::Paren { .. }
    )
}

fn is_base(expr: &Expr) -> bool
    ensures { result ≡ shapes.is_base_at (out-Expr expr.now) }
{
    is_variable(expr) || is_value_base(expr)
}

fn is_open(expr: &Expr) -> bool
    ensures { result ≡ shapes.is_open_at (out-Expr expr.now) }
{
    matches!(
        expr,
        Expr::Text { .. } | Expr::Interpolated { .. } | Expr::Array { .. } | Expr::Path { .. }
    )
}

/// Whether an expression is a path of the grammar.
pub fn is_path(expr: &Expr) -> bool
    ensures { result ≡ shapes.is_path expr.now }
{
    match expr {
        Expr::Path { base, .. } => is_base(base.get()),
        _ => is_base(expr),
    }
}

/// Whether an expression may be assigned to.
pub fn is_written(expr: &Expr) -> bool
    ensures { result ≡ shapes.is_written expr.now }
{
    match expr {
        Expr::Path { base, steps, .. } => is_variable(base.get())
            || (is_value_base(base.get()) && begins_with_property(steps.as_slice())),
        _ => is_variable(expr),
    }
}

/// Whether an expression may stand behind a reference's `&`.
pub fn is_source(expr: &Expr) -> bool
    ensures { result ≡ shapes.is_source expr.now }
{
    match expr {
        Expr::Paren { .. } => false,
        _ => is_path(expr),
    }
}

/// Whether what looks like arguments behind an expression is a call of it.
pub fn is_callable(expr: &Expr) -> bool
    ensures { result ≡ shapes.is_callable expr.now }
{
    match expr {
        Expr::StaticProperty { .. } => false,
        _ => is_base(expr) || is_open(expr),
    }
}

/// Whether an expression may stand for a class before `::`.
pub fn is_class_expression(expr: &Expr) -> bool
    ensures { result ≡ shapes.is_class_expression expr.now }
{
    match expr {
        Expr::ClassConstant { .. } | Expr::ClassName { .. } => true,
        _ => is_base(expr) || is_open(expr),
    }
}

fn lower(byte: u8) -> u8
    ensures { result ≡ bytes.lower byte }
{
    if byte >= b'A' && byte <= b'Z' {
        byte + 32
    } else {
        byte
    }
}

/// Whether a name is a word, which is in lower case, in any ASCII case.
fn is_word(word: &[u8], name: &[u8]) -> bool
    ensures { result ≡ bytes.is_word word.now name.now }
{
    let [letter, word @ ..] = word else {
        return name.is_empty();
    };
    let [byte, name @ ..] = name else {
        return false;
    };
    *letter == lower(*byte) && is_word(word, name)
}

/// Whether a name is `class`, in any ASCII case.
pub fn is_class(name: &[u8]) -> bool
    ensures { result ≡ is_class_word name.now }
{
    is_word(b"class", name)
}
