//! The state in which a machine begins.
ghost use Rattle.std.specs.Prelude.{◌≡◌, IfOk};
ghost use Rattle.hph_core.specs.State.{HasAll};
ghost use Rattle.hph_core.specs.Events.{seats_from};
ghost use Rattle.hph_machine.specs.Values.{state_of};
ghost use Rattle.hph_machine_value.specs.Begins.{Begins};

use hph_core::View;
use hph_machine::entries;
use hph_machine::state::State;
use hph_sys::System;
use hph_type::Ty;
use std::alloc::{AllocError, Global};

// The words of a set that has all scopes.
fn full_set(alloc: Global, scopes: u32) -> Result<Vec<u64>, AllocError>
    ensures { IfOk result (λ v. HasAll scopes v.items) }
{
    let mut work = Vec::from_elem(alloc, 0u64, (scopes as usize + 63) / 64)?;
    for s in 0..scopes {
        work[(s / 64) as usize] |= 1u64 << (s % 64);
    }
    Ok(work)
}

// Live seats that have done nothing yet, numbered from 0.
fn fresh_seats(alloc: Global, workers: u32) -> Result<Vec<View>, AllocError>
    ensures { IfOk result (λ v. v.items ≡ seats_from workers 0) }
{
    let mut seats = Vec::new(alloc);
    for number in 0..workers {
        seats.push(entries::fresh(alloc, number))?;
    }
    Ok(seats)
}

/// The first state of a system's machine with this many workers. Err where there is no memory.
pub fn first_state<S: System>(alloc: Global, system: &S, workers: u32) -> Result<State, AllocError>
    ensures { IfOk result (λ s. Begins (S.shape system.now) workers (state_of s)) }
{
    let scopes = system.scopes();
    let cells = Vec::from_elem(alloc, Ty::none(), system.cells() as usize)?;
    let holders = Vec::from_elem(alloc, 0u32, scopes as usize)?;
    let work = full_set(alloc, scopes)?;
    let entries = fresh_seats(alloc, workers)?;
    Ok(State {
        cells,
        holders,
        work,
        pending: scopes as u64,
        entries,
    })
}
