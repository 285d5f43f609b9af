//! The sweep on one thread.
ghost use Rattle.std.specs.Prelude.{◌≡◌, ◌<◌, IfOk, OnOk};
ghost use Rattle.hph_sys.specs.Shape.{IsTyping};
ghost use Rattle.hph_sys.specs.Least.{IsLeast};
ghost use Rattle.hph_core.specs.Rule.{AtMostLeast};
ghost use Rattle.hph_infer.specs.Raising.{RaisedBy};
ghost use Rattle.hph_infer.specs.Sweep.{Swept, SweptRound};

use hph_sys::System;
use hph_type::{Ty, join, leq};
use std::alloc::AllocError;

/// Raises cells until all that is asked is met, and counts the raises; 2^64 - 1 stands for as many or more. Err where
/// there is no memory.
pub fn sweep<S: System>(system: &S, cells: &mut Vec<Ty>) -> Result<u64, AllocError>
    requires typing { IsTyping (S.shape system.now) cells.old.items }
    requires below { AtMostLeast (S.shape system.now) cells.old.items }
    ensures least { OnOk result (IsLeast (S.shape system.now) cells.new.items) }
    ensures raises { IfOk result (λ n. RaisedBy (S.shape system.now) n cells.old.items cells.new.items) }
    ensures same { IfOk result (λ n. n ≡ 0 → cells.new.items ≡ cells.old.items) }
    ensures none { IfOk result (λ n. IsLeast (S.shape system.now) cells.old.items → n ≡ 0) }
{
    let mut raises: u64 = 0;
    'rounds: loop {
        let more = sweep_round(system, cells)?;
        if more == 0 {
            return Ok(raises);
        }
        raises = raises.saturating_add(more);
    }
}

// One round over the scopes. The number of raises.
fn sweep_round<S: System>(system: &S, cells: &mut Vec<Ty>) -> Result<u64, AllocError>
    requires typing { IsTyping (S.shape system.now) cells.old.items }
    ensures round { IfOk result (λ n. SweptRound (S.shape system.now) (S.shape system.now).scopes n cells.old.items cells.new.items) }
{
    let mut raises: u64 = 0;
    for s in 0..system.scopes() {
        let more = sweep_scope(system, s, cells)?;
        raises = raises.saturating_add(more);
    }
    Ok(raises)
}

// Raises what the scope asks once. The number of raises.
fn sweep_scope<S: System>(system: &S, s: u32, cells: &mut Vec<Ty>) -> Result<u64, AllocError>
    requires scope { s < (S.shape system.now).scopes }
    requires typing { IsTyping (S.shape system.now) cells.old.items }
    ensures swept { IfOk result (λ n. Swept (S.shape system.now) s n cells.old.items cells.new.items) }
{
    let pairs = system.contrib(s, cells.as_slice())?;
    Ok(sweep_pairs(system, s, pairs.as_slice(), cells))
}

// Raises each cell to what a pair asks of it. The number of raises.
fn sweep_pairs<S: System>(system: &S, s: u32, pairs: &[(u32, Ty)], cells: &mut Vec<Ty>) -> u64
    requires scope { s < (S.shape system.now).scopes }
    requires typing { IsTyping (S.shape system.now) cells.old.items }
    requires pairs { pairs.now ≡ (S.shape system.now).contrib s cells.old.items }
    ensures swept { Swept (S.shape system.now) s result cells.old.items cells.new.items }
{
    let mut raises: u64 = 0;
    for (cell, ty) in pairs {
        let now = cells[*cell as usize];
        if !leq(*ty, now, system.tree()) {
            cells[*cell as usize] = join(now, *ty, system.tree());
            raises = raises.saturating_add(1);
        }
    }
    raises
}
