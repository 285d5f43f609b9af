//! Members of lists.
ghost use Rattle.std.specs.Prelude.{◌≡◌, ◌↔◌, ℕ, IsTrue, IfOk};
ghost use Rattle.hph_sys.specs.Typings.{In};
ghost use Rattle.hph_core.specs.State.{without, elsewhere, others};

use hph_core::Known;
use std::alloc::{AllocError, Global};
use std::collections::LinkedList;

// Whether a number is in a list.
pub fn has(list: &LinkedList<u32>, x: u32) -> bool
    ensures { IsTrue result ↔ In x list.now }
{
    list.contains(&x)
}

// Whether all of some numbers are in a list.
pub fn has_all(list: &LinkedList<u32>, xs: &[u32]) -> bool
    ensures { IsTrue result ↔ ((x : ℕ) → In x xs.now → In x list.now) }
{
    for x in xs {
        if !has(list, *x) {
            return false;
        }
    }
    true
}

// Whether one of some numbers is in a list.
pub fn has_one(list: &LinkedList<u32>, xs: &[u32]) -> bool
    ensures { IsTrue result ↔ ((x : ℕ) × In x xs.now × In x list.now) }
{
    for x in xs {
        if has(list, *x) {
            return true;
        }
    }
    false
}

// A number is among others.
pub fn is_among(x: u32, xs: &[u32]) -> bool
    ensures { IsTrue result ↔ In x xs.now }
{
    xs.contains(&x)
}

// The list without a number.
pub fn without(alloc: Global, list: &LinkedList<u32>, x: u32) -> Result<LinkedList<u32>, AllocError>
    ensures { IfOk result (λ kept. kept ≡ without x list.now) }
{
    let mut kept = LinkedList::new(alloc);
    for y in list {
        if *y != x {
            kept.push_back(*y)?;
        }
    }
    Ok(kept)
}

// What is known of cells whose owner is another scope.
pub fn elsewhere(
    alloc: Global,
    known: &LinkedList<Known>,
    owner: u32,
) -> Result<LinkedList<Known>, AllocError>
    ensures { IfOk result (λ kept. kept ≡ elsewhere owner known.now) }
{
    let mut kept = LinkedList::new(alloc);
    for k in known {
        if k.owner != owner {
            kept.push_back(Known {
                cell: k.cell,
                owner: k.owner,
                ty: k.ty,
            })?;
        }
    }
    Ok(kept)
}

// What is known of other cells.
pub fn others(
    alloc: Global,
    known: &LinkedList<Known>,
    cell: u32,
) -> Result<LinkedList<Known>, AllocError>
    ensures { IfOk result (λ kept. kept ≡ others cell known.now) }
{
    let mut kept = LinkedList::new(alloc);
    for k in known {
        if k.cell != cell {
            kept.push_back(Known {
                cell: k.cell,
                owner: k.owner,
                ty: k.ty,
            })?;
        }
    }
    Ok(kept)
}
