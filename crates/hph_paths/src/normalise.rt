//! Normalised paths and folders.
ghost use Rattle.std.specs.Prelude.{◌≡◌, ℕ, List, [], map, reverse, string_bytes, IfOk, codes, length};
ghost use Rattle.hph_php.specs.Includes.{folder, kept, normalised, step_back};
ghost use Rattle.hph_php.specs.StringFunctions.{explode};
ghost use Rattle.hph_paths.specs.Segments.{after_segment, texts};

use std::alloc::{AllocError, Global};

/// The path without empty and `.` segments and with `a/..` cancelled; a leading `/` stays, `..` at the root is dropped, and
/// a leading `..` of another path stays.
pub fn normalised(alloc: Global, path: &str) -> Result<String, AllocError>
    ensures { IfOk result (λ text. string_bytes text ≡ normalised path.now) }
{
    let rooted = path.starts_with('/');
    let segments = segments(alloc, path, rooted)?;
    let joined = segments.join(alloc, "/")?;
    if rooted {
        format!(in alloc; "/{joined}")
    } else {
        Ok(joined)
    }
}

/// The segments that are kept of a path.
fn segments(alloc: Global, path: &str, rooted: bool) -> Result<Vec<&str>, AllocError>
    ensures { IfOk result (λ segments. texts segments.items ≡ kept rooted [] (explode (codes "/") path.now)) }
{
    let mut before = Vec::new(alloc);
    let mut rest = path;
    while let Some((segment, more)) = rest.split_once('/') {
        keep(&mut before, rooted, segment)?;
        rest = more;
    }
    keep(&mut before, rooted, rest)?;
    Ok(before)
}

/// Takes one more segment of a path.
#[tactic(auto, using(crate::proofs::Segments::keeps_another))]
fn keep<'a>(before: &mut Vec<&'a str>, rooted: bool, segment: &'a str) -> Result<(), AllocError>
    ensures { IfOk result (λ _. texts before.new.items ≡ reverse (after_segment rooted (reverse (texts before.old.items)) segment.now)) }
{
    match segment {
        "" | "." => Ok(()),
        ".." => step_back(before, rooted),
        _ => Ok(before.push(segment)?),
    }
}

/// Takes a segment `..`, which cancels the last one, is dropped at the root, and stays at the front of another path.
fn step_back(before: &mut Vec<&str>, rooted: bool) -> Result<(), AllocError>
    ensures { IfOk result (λ _. texts before.new.items ≡ reverse (step_back rooted (reverse (texts before.old.items)))) }
{
    match before.last() {
        Some(last) if *last != ".." => {
            before.pop();
            Ok(())
        }
        None if rooted => Ok(()),
        _ => Ok(before.push("..")?),
    }
}

/// The folder that a file stands in: `.` for a path without `/`, and `/` for one whose only `/` is its first byte.
pub fn folder(path: &str) -> &str
    ensures { result.now ≡ folder path.now }
{
    match path.rfind('/') {
        None => ".",
        Some(0) => "/",
        Some(at) => &path[..at],
    }
}
