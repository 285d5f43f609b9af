//! Nodes in boxes of their own.

ghost use Rattle.std.specs.Prelude.{◌≡◌, IfOk, IfErr};
ghost use Rattle.hph_cursor.specs.declared.error.ParseFault.TheVariants.{NoMemory};

use hph_cursor::ParseFault;
use sqlite_items::Boxed;
use std::alloc::Global;

/// A node in a box, unless memory runs out.
pub fn boxed<T: Drop>(alloc: Global, node: T) -> Result<Boxed<T>, ParseFault>
    ensures node { IfOk result (λ found. found ≡ node) }
    ensures no_memory { IfErr result (λ e. e ≡ NoMemory) }
{
    Ok(Boxed::new(alloc, node)?)
}
