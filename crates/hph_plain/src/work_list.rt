ghost use Rattle.std.specs.Prelude.{◌≡◌, ◌<◌, ◌≤◌, ℕ, length, slice_set, IfOk, OnOk};
ghost use Rattle.hph_type.specs.Types.{PhpType};
ghost use Rattle.hph_type.specs.Order.{IsOf, join};
ghost use Rattle.hph_sys.specs.Typings.{at};
ghost use Rattle.hph_sys.specs.Shape.{IsTyping};
ghost use Rattle.hph_sys.specs.Least.{IsLeast};
ghost use Rattle.hph_plain.specs.Waiting.{Wakes};
ghost use Rattle.hph_plain.specs.Run.{RunsBut, Runs, left};

use crate::waiting::{Waiting, wake};
use hph_sys::System;
use hph_type::{Ty, join, leq};
use std::alloc::{AllocError, Global};

/// The least typing of a system. Err where there is no memory.
pub fn plain<S: System>(alloc: Global, system: &S) -> Result<Vec<Ty>, AllocError>
    ensures { IfOk result (λ typing. IsLeast (S.shape system.now) typing.items) }
{
    let mut typing = Vec::from_elem(alloc, Ty::none(), system.cells() as usize)?;
    let mut waiting = Waiting::all(alloc, system.scopes())?;
    while let Some(scope) = waiting.take() {
        settle(system, scope, &mut typing, &mut waiting)?;
    }
    Ok(typing)
}

// Raises the cells until the scope is met or waits. Err where there is no memory.
fn settle<S: System>(
    system: &S,
    scope: u32,
    typing: &mut Vec<Ty>,
    waiting: &mut Waiting,
) -> Result<(), AllocError>
    requires scope { scope < (S.shape system.now).scopes }
    requires runs { RunsBut (S.shape system.now) scope typing.old.items waiting.old }
    ensures runs { OnOk result (Runs (S.shape system.now) typing.new.items waiting.new) }
    ensures left { OnOk result (left (S.shape system.now) typing.new.items waiting.new ≤ left (S.shape system.now) typing.old.items waiting.old) }
{
    let pairs = system.contrib(scope, typing.as_slice())?;
    raise_all(system, scope, pairs.as_slice(), typing, waiting)
}

// Raises each cell that a pair asks more of. Err where there is no memory.
fn raise_all<S: System>(
    system: &S,
    scope: u32,
    pairs: &[(u32, Ty)],
    typing: &mut Vec<Ty>,
    waiting: &mut Waiting,
) -> Result<(), AllocError>
    requires scope { scope < (S.shape system.now).scopes }
    requires pairs { pairs.now ≡ (S.shape system.now).contrib scope typing.old.items }
    requires runs { RunsBut (S.shape system.now) scope typing.old.items waiting.old }
    ensures runs { OnOk result (Runs (S.shape system.now) typing.new.items waiting.new) }
    ensures left { OnOk result (left (S.shape system.now) typing.new.items waiting.new ≤ left (S.shape system.now) typing.old.items waiting.old) }
{
    for (cell, ty) in pairs {
        if !leq(*ty, typing[*cell as usize], system.tree()) {
            raise(system, *cell, *ty, typing, waiting)?;
        }
    }
    Ok(())
}

// Raises a cell to the join with a type, and its readers wait. Err where there is no memory.
fn raise<S: System>(
    system: &S,
    cell: u32,
    ty: Ty,
    typing: &mut Vec<Ty>,
    waiting: &mut Waiting,
) -> Result<(), AllocError>
    requires cell { cell < (S.shape system.now).cells }
    requires ty { IsOf (S.shape system.now).classes ty }
    requires typing { IsTyping (S.shape system.now) typing.old.items }
    requires waiting { length waiting.old ≡ (S.shape system.now).scopes }
    ensures risen { OnOk result (typing.new.items ≡ slice_set typing.old.items cell (join (S.shape system.now).classes (at typing.old.items cell) ty)) }
    ensures wakes { OnOk result (Wakes ((S.shape system.now).readers cell) waiting.old waiting.new) }
{
    let risen = join(typing[cell as usize], ty, system.tree());
    wake(waiting, system.readers(cell))?;
    typing[cell as usize] = risen;
    Ok(())
}
