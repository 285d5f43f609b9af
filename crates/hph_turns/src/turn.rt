//! One turn.
ghost use Rattle.std.specs.Prelude.{◌≡◌, ◌<◌, IfOk, OnOk, IfNone, IfSome, []};
ghost use Rattle.hph_sys.specs.Shape.{IsTyping};
ghost use Rattle.hph_core.specs.Conditions.{IsIdle};
ghost use Rattle.hph_turns.specs.Phases.{HasHand};
ghost use Rattle.hph_turns.specs.Turns.{Tells};

use crate::cells::read_cells;
use crate::hold::{hold_all, release_all};
use crate::raise::settle;
use hph_src::{Gate, Point};
use hph_sys::System;
use hph_table::{Seat, Shared};
use hph_type::Ty;
use std::alloc::AllocError;

/// What came of a turn.
#[derive(Clone, Copy, Debug, Drop)]
pub enum Turn {
    /// It is done with the scope with this number.
    Done(u32),
    /// It put back the scope with the first number: at the scope with the second it met the worker with the third.
    PutBack(u32, u32, u32),
    /// It saw no scope in the work set that it could take, and read that this many are pending.
    NoWork(u64),
}

// Takes the first scope that it sees in the set.
fn find<S: System>(shared: &Shared<S>, seat: &mut Seat<S>, scopes: u32) -> Option<u32>
    requires table { seat.old.0 ≡ shared.now.0 }
    requires scopes { scopes ≡ (S.shape shared.now.1.system.value).scopes }
    requires idle { IsIdle seat.old.1 }
    ensures table { seat.new.0 ≡ shared.now.0 }
    ensures none { IfNone result (IsIdle seat.new.1 × (seat.new.1.number ≡ seat.old.1.number)) }
    ensures some { IfSome result (λ s. (s < scopes) × HasHand seat.new.1 seat.old.1.number s × (seat.new.1.holds ≡ [])) }
{
    let words = ((scopes as u64 + 63) / 64) as u32;
    for word in 0..words {
        let bits = shared.peek(seat, word);
        if bits != 0 {
            let s = (64 * word as u64 + bits.trailing_zeros() as u64) as u32;
            if shared.take(seat, s) {
                return Some(s);
            }
        }
    }
    None
}

/// Takes one turn, and passes the gate after each step that it has a point for. `known` has a type for each cell, which
/// the turn writes over. Err where there is no memory.
pub fn take_turn<S: System, G: Gate>(
    shared: &Shared<S>,
    seat: &mut Seat<S>,
    system: &S,
    gate: &G,
    known: &mut Vec<Ty>,
) -> Result<Turn, AllocError>
    requires table { seat.old.0 ≡ shared.now.0 }
    requires system { shared.now.1.system.value ≡ system.now }
    requires idle { IsIdle seat.old.1 }
    requires known { IsTyping (S.shape system.now) known.old.items }
    ensures table { OnOk result (seat.new.0 ≡ shared.now.0) }
    ensures idle { OnOk result (IsIdle seat.new.1) }
    ensures number { OnOk result (seat.new.1.number ≡ seat.old.1.number) }
    ensures known { OnOk result (IsTyping (S.shape system.now) known.new.items) }
    ensures pending { IfOk result (λ t. Tells t seat.new.1) }
{
    let Some(s) = find(shared, seat, system.scopes()) else {
        let left = shared.pending(seat);
        gate.at(seat.number(), Point::Idle(left));
        return Ok(Turn::NoWork(left));
    };
    gate.at(seat.number(), Point::Took(s));
    let look = system.look(s);
    if let Some((d, h)) = hold_all(shared, seat, look) {
        gate.at(seat.number(), Point::Met(d, h));
        if !shared.put_back(seat, s) {
            shared.pending_drop(seat);
        }
        return Ok(Turn::PutBack(s, d, h));
    }
    gate.at(seat.number(), Point::Held(s));
    read_cells(shared, seat, system, look, known);
    settle(shared, seat, system, gate, s, known)?;
    shared.pending_drop(seat);
    release_all(shared, seat, look);
    gate.at(seat.number(), Point::Finished(s));
    Ok(Turn::Done(s))
}
