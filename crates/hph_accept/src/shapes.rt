//! What a rule asks of the form of an expression.
ghost use Rattle.std.specs.Prelude.{◌≡◌, not, ◌==◌, length};
ghost use Rattle.std.specs.Str.Lossy.{utf8_valid_len};
ghost use Rattle.std.specs.List.{list_all};
ghost use Rattle.hph_ast.specs.RefusedExpressions as refused;
ghost use Rattle.hph_ast.specs.RefusedExpressions.{part};
ghost use Rattle.hph_accept.specs.Paths as paths;

use hph_ast::{Binary, Expr};
use hph_cursor::place;

/// The offset of an expression's first byte.
#[tactic(auto, using(crate::proofs::Starts::shapes))]
pub fn start(expr: &Expr) -> u32
    ensures { result ≡ (part expr.now).start }
{
    place(expr).start
}

/// Whether a name is `this`.
pub fn is_this_name(name: &[u8]) -> bool
    ensures { result ≡ refused.is_this_name name.now }
{
    name == b"this".as_slice()
}

/// Whether an expression is `$this`.
#[tactic(auto, using(crate::proofs::Starts::shapes))]
pub fn is_this(expr: &Expr) -> bool
    ensures { result ≡ refused.is_this (part expr.now).shape }
{
    match expr {
        Expr::Variable { name, .. } => is_this_name(name.as_slice()),
        _ => false,
    }
}

/// Whether an expression is a variable.
#[tactic(auto, using(crate::proofs::Starts::shapes))]
pub fn is_plain_variable(expr: &Expr) -> bool
    ensures { result ≡ refused.is_plain_variable (part expr.now).shape }
{
    matches!(expr, Expr::Variable { .. })
}

#[tactic(auto, using(crate::proofs::Paths::utf8))]
fn is_utf8(bytes: &[u8]) -> bool
    ensures { result ≡ (utf8_valid_len bytes.now == length bytes.now) }
{
    match str::from_utf8(bytes) {
        Ok(_) => true,
        Err(_) => false,
    }
}

fn has_no_zero(bytes: &[u8]) -> bool
    ensures { result ≡ list_all (λ byte. not (byte == 0)) bytes.now }
{
    bytes.iter().all(|byte| *byte != 0)
}

/// Whether bytes are UTF-8 without a zero byte, as paths are.
fn is_path_text(bytes: &[u8]) -> bool
    ensures { result ≡ refused.is_path_text bytes.now }
{
    is_utf8(bytes) && has_no_zero(bytes)
}

/// Whether an expression is a string that can be a path.
#[tactic(auto, using(crate::proofs::Starts::shapes))]
fn is_text_path(expr: &Expr) -> bool
    ensures { result ≡ paths.is_text_path (part expr.now).shape }
{
    match expr {
        Expr::Text { bytes, .. } => is_path_text(bytes.as_slice()),
        _ => false,
    }
}

/// Whether an expression is `__DIR__`.
#[tactic(auto, using(crate::proofs::Starts::shapes))]
fn is_directory(expr: &Expr) -> bool
    ensures { result ≡ paths.is_directory (part expr.now).shape }
{
    matches!(expr, Expr::Directory { .. })
}

/// Whether what is joined to a directory is one string that can be a path.
fn is_file_name(more: &[(Binary, Expr)]) -> bool
    ensures { result ≡ paths.is_file_name more.now }
{
    match more {
        [(Binary::Concat, name)] => is_text_path(name),
        _ => false,
    }
}

/// Whether an expression can be the path of an include: a string, or `__DIR__` and a string.
#[tactic(auto, using(crate::proofs::Starts::part_shape))]
pub fn is_include_path(expr: &Expr) -> bool
    ensures { result ≡ refused.is_include_path (part expr.now).shape }
{
    match expr {
        Expr::Run { first, more, .. } => is_directory(first.get()) && is_file_name(more.as_slice()),
        Expr::Text { bytes, .. } => is_path_text(bytes.as_slice()),
        _ => false,
    }
}
