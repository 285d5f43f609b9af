ghost use Rattle.std.specs.Prelude.{◌≡◌, ◌<◌, IfOk};
ghost use Rattle.hph_sys.specs.Shape.{Shape, IsTyping};
ghost use Rattle.hph_sys.specs.Lawful.{Lawful};

use hph_type::{ClassTree, Ty};
use std::alloc::AllocError;

/// Scopes that ask types of cells, under laws.
pub trait System {
    /// What the system is, as plain data.
    ghost shape: { Self → Shape };

    /// The number of scopes, at least one. They are numbered from 0.
    fn scopes(&self) -> u32
        ensures { result ≡ (shape self.now).scopes };

    /// The number of cells. They are numbered from 0.
    fn cells(&self) -> u32
        ensures { result ≡ (shape self.now).cells };

    /// The scope that owns a cell.
    fn owner(&self, cell: u32) -> u32
        requires { cell < (shape self.now).cells }
        ensures { result ≡ (shape self.now).owner cell };

    /// The scopes that own a cell which a scope reads or asks, and the scope itself, ascending.
    fn look(&self, scope: u32) -> &[u32]
        requires { scope < (shape self.now).scopes }
        ensures { result.now ≡ (shape self.now).look scope };

    /// The scopes that read a cell.
    fn readers(&self, cell: u32) -> &[u32]
        requires { cell < (shape self.now).cells }
        ensures { result.now ≡ (shape self.now).readers cell };

    /// The pairs of a cell and a type that a scope asks where the cells have these types, one per cell. Err where there
    /// is no memory.
    fn contrib(&self, scope: u32, known: &[Ty]) -> Result<Vec<(u32, Ty)>, AllocError>
        requires scope { scope < (shape self.now).scopes }
        requires known { IsTyping (shape self.now) known.now }
        ensures { IfOk result (λ pairs. pairs.items ≡ (shape self.now).contrib scope known.now) };

    /// The classes that the types name.
    fn tree(&self) -> &ClassTree
        ensures { result.now ≡ (shape self.now).classes };

    ghost laws: { (x : Self) → Lawful (shape x) };
}
