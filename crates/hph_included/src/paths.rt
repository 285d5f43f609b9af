//! The paths that includes name.
ghost use Rattle.std.specs.Prelude.{◌≡◌, ◌++◌, true, filter_map, map, MatchOption, None, Some, string_bytes, IfOk, OnOk};
ghost use Rattle.std.specs.Option.{option_map, option_to_list};
ghost use Rattle.hph_ast.specs.RefusedExpressions.{part, is_path_text, is_include_path};
ghost use Rattle.hph_ast.specs.RefusedStatements.{tree_construct};
ghost use Rattle.hph_php.specs.Includes.{from_folder, normalised};
ghost use Rattle.hph_php.specs.Targets.{another};
ghost use Rattle.hph_program.specs.Sources.{included_from, path_named};
ghost use Rattle.hph_included.specs.Literals.{are_paths, directory_text, is_directory, joined_text, shapes, text_bytes};

use crate::literals::in_statements;
use hph_ast::{Binary, Expr, FileTree};
use hph_paths::{folder, normalised};
use std::alloc::{AllocError, Global};

/// The normalised paths of the files that a file includes, in order of text. `path` is the file's own.
pub fn included(alloc: Global, path: &str, tree: &FileTree) -> Result<Vec<String>, AllocError>
    requires { tree_construct tree.now ≡ None }
    ensures { IfOk result (λ paths. map string_bytes paths.items ≡ included_from path.now tree.now) }
{
    let mut literals = Vec::new(alloc);
    in_statements(&mut literals, tree.statements.as_slice())?;
    all_named(alloc, folder(path), &literals)
}

/// The paths that literals name, from the folder of their file.
fn all_named(alloc: Global, folder: &str, literals: &[&Expr]) -> Result<Vec<String>, AllocError>
    requires { are_paths (shapes literals.now) ≡ true }
    ensures { IfOk result (λ paths. map string_bytes paths.items ≡ filter_map (path_named folder.now) (shapes literals.now)) }
{
    let mut paths = Vec::new(alloc);
    for literal in literals {
        add_named(alloc, folder, &mut paths, literal)?;
    }
    Ok(paths)
}

/// Adds the path that a literal names.
fn add_named(
    alloc: Global,
    folder: &str,
    paths: &mut Vec<String>,
    literal: &Expr,
) -> Result<(), AllocError>
    requires { is_include_path (part literal.now).shape ≡ true }
    ensures { OnOk result (map string_bytes paths.new.items ≡ map string_bytes paths.old.items ++ option_to_list (path_named folder.now (part literal.now).shape)) }
{
    match named(alloc, folder, literal)? {
        Some(path) => Ok(paths.push(path)?),
        None => Ok(()),
    }
}

/// The path that the literal of an include names; none where it can be no path.
fn named(alloc: Global, folder: &str, literal: &Expr) -> Result<Option<String>, AllocError>
    ensures { is_include_path (part literal.now).shape ≡ true → IfOk result (λ path. option_map string_bytes path ≡ path_named folder.now (part literal.now).shape) }
{
    if let Some(bytes) = text(literal) {
        return against(alloc, folder, bytes);
    }
    match text_behind_directory(literal) {
        Some(bytes) => behind(alloc, folder, bytes),
        None => Ok(None),
    }
}

/// The bytes of an expression that is a text.
#[tactic(auto, using(crate::proofs::Naming::the_shapes))]
fn text(expr: &Expr) -> Option<&[u8]>
    ensures { option_map (λ bytes. bytes.now) result ≡ text_bytes (part expr.now).shape }
{
    match expr {
        Expr::Text { bytes, .. } => Some(bytes.as_slice()),
        _ => None,
    }
}

/// Whether an expression is `__DIR__`.
#[tactic(auto, using(crate::proofs::Naming::the_shapes))]
fn is_directory(expr: &Expr) -> bool
    ensures { result ≡ is_directory (part expr.now).shape }
{
    matches!(expr, Expr::Directory { .. })
}

/// The bytes of the one text that is joined to what stands before it.
fn joined_text(more: &[(Binary, Expr)]) -> Option<&[u8]>
    ensures { option_map (λ bytes. bytes.now) result ≡ joined_text more.now }
{
    match more {
        [(Binary::Concat, name)] => text(name),
        _ => None,
    }
}

/// The bytes of a text that is joined to `__DIR__`.
#[tactic(auto, using(crate::proofs::Naming::the_shapes))]
fn text_behind_directory(expr: &Expr) -> Option<&[u8]>
    ensures { option_map (λ bytes. bytes.now) result ≡ directory_text (part expr.now).shape }
{
    match expr {
        Expr::Run { first, more, .. } if is_directory(first.get()) => joined_text(more.as_slice()),
        _ => None,
    }
}

/// The path of a text, which stands in the folder unless it begins with `/`.
fn against(alloc: Global, folder: &str, bytes: &[u8]) -> Result<Option<String>, AllocError>
    ensures { is_path_text bytes.now ≡ true → IfOk result (λ path. option_map string_bytes path ≡ Some (normalised (from_folder another folder.now bytes.now))) }
{
    let Some(text) = path_text(bytes) else {
        return Ok(None);
    };
    if text.starts_with('/') {
        return Ok(Some(normalised(alloc, text)?));
    }
    let path = format!(in alloc; "{folder}/{text}")?;
    Ok(Some(normalised(alloc, &path)?))
}

/// The path of a text behind the folder.
fn behind(alloc: Global, folder: &str, bytes: &[u8]) -> Result<Option<String>, AllocError>
    ensures { is_path_text bytes.now ≡ true → IfOk result (λ path. option_map string_bytes path ≡ Some (normalised (folder.now ++ bytes.now))) }
{
    let Some(text) = path_text(bytes) else {
        return Ok(None);
    };
    let path = format!(in alloc; "{folder}{text}")?;
    Ok(Some(normalised(alloc, &path)?))
}

/// Bytes as the text of a path; none where they aren't UTF-8.
fn path_text(bytes: &[u8]) -> Option<&str>
    ensures { is_path_text bytes.now ≡ true → MatchOption result ⊥ (λ text. text.now ≡ bytes.now) }
{
    str::from_utf8(bytes).ok()
}
