//! The turns of one worker.
ghost use Rattle.std.specs.Prelude.{◌≡◌, IfOk, OnOk};
ghost use Rattle.hph_core.specs.Conditions.{IsIdle};
ghost use Rattle.hph_infer.specs.Reports.{IsReport};

use hph_src::Gate;
use hph_sys::System;
use hph_table::{Seat, Shared};
use hph_turns::{Turn, take_turn};
use hph_type::Ty;
use std::alloc::{AllocError, Global};

/// Why a worker left.
#[derive(Clone, Copy, Debug, Drop)]
pub enum Left {
    /// It read that nothing is pending.
    Zero,
    /// Its budget of turns was used up.
    Budget,
}

/// What a worker did.
#[derive(Debug, Drop)]
pub struct Report {
    /// Its turns, in their order.
    pub turns: Vec<Turn>,
    /// Why it left.
    pub left: Left,
}

/// Takes turns until nothing is pending, but at most `budget` turns. Err where there is no memory.
pub fn work<S: System, G: Gate>(
    alloc: Global,
    shared: &Shared<S>,
    seat: &mut Seat<S>,
    system: &S,
    gate: &G,
    budget: u64,
) -> Result<Report, AllocError>
    requires table { seat.old.0 ≡ shared.now.0 }
    requires system { shared.now.1.system.value ≡ system.now }
    requires idle { IsIdle seat.old.1 }
    ensures table { OnOk result (seat.new.0 ≡ shared.now.0) }
    ensures idle { OnOk result (IsIdle seat.new.1) }
    ensures number { OnOk result (seat.new.1.number ≡ seat.old.1.number) }
    ensures report { IfOk result (λ r. IsReport budget seat.new.1 r) }
{
    let mut known = Vec::new(alloc);
    for _c in 0..system.cells() {
        known.push(Ty::none())?;
    }
    let mut turns = Vec::new(alloc);
    for _turn in 0..budget {
        let made = take_turn(shared, seat, system, gate, &mut known)?;
        turns.push(made)?;
        if let Turn::NoWork(0) = made {
            return Ok(Report {
                turns,
                left: Left::Zero,
            });
        }
    }
    Ok(Report {
        turns,
        left: Left::Budget,
    })
}
