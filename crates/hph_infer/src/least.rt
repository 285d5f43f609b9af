//! The least typing.
ghost use Rattle.std.specs.Prelude.{◌≡◌, ◌<◌, ◌≤◌, IfOk, length};
ghost use Rattle.hph_sys.specs.Least.{IsLeast};
ghost use Rattle.hph_infer.specs.Reports.{LeftAtZero};

use crate::rounds::sweep;
use crate::threads::{pack, team, unpack};
use crate::turns::Report;
use hph_src::Gate;
use hph_sys::System;
use hph_table::Shared;
use hph_type::Ty;
use std::alloc::{AllocError, Global};
use std::thread::Threads;

/// What the inference gives.
#[derive(Drop)]
pub struct Inferred {
    /// A type for each cell.
    pub typing: Vec<Ty>,
    /// What each worker did, in the order of their seats.
    pub reports: Vec<Report>,
    /// How many raises the sweep made.
    pub sweep_raises: u64,
}

/// The least typing, by this many workers, each with this budget of turns, in every schedule. Err where there is no
/// memory.
pub fn infer<R: Threads + Sync, S: System + Sync, G: Gate + Sync>(
    rt: &R,
    alloc: Global,
    system: &S,
    workers: u32,
    gate: &G,
    budget: u64,
) -> Result<Inferred, AllocError>
    requires workers { (0 < workers) × (workers ≤ 64) }
    ensures least { IfOk result (λ r. IsLeast (S.shape system.now) r.typing.items) }
    ensures reports { IfOk result (λ r. length r.reports.items ≡ workers) }
    ensures zero { IfOk result (λ r. LeftAtZero r.reports.items → r.sweep_raises ≡ 0) }
{
    let (shared, seats) = Shared::new(alloc, system, workers)?;
    let mut members = pack(alloc, seats)?;
    team(
        rt,
        &shared,
        system,
        gate,
        alloc,
        budget,
        members.as_mut_slice(),
    );
    let (seats, reports) = unpack(alloc, members)?;
    let mut typing = shared.close(alloc, seats)?;
    let sweep_raises = sweep(system, &mut typing)?;
    Ok(Inferred {
        typing,
        reports,
        sweep_raises,
    })
}
