//! Copies that have room to grow.
ghost use Rattle.std.specs.Prelude.{◌≡◌, IfOk};

use std::alloc::{AllocError, Global};

/// A copy of items with room for some more, so that as many may be put behind them without another copy.
pub(crate) fn copied_with_room<T: Drop + Clone>(
    alloc: Global,
    items: &[T],
    more: usize,
) -> Result<Vec<T>, AllocError>
    requires { (x y : T) → T.is_clone x y → y ≡ x }
    ensures { IfOk result (λ copy. copy.items ≡ items.now) }
{
    let mut copy = Vec::with_capacity(alloc, items.len().saturating_add(more))?;
    copy.extend_with_clones(items)?;
    Ok(copy)
}
