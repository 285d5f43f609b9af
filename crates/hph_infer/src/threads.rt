//! Workers in threads.
ghost use Rattle.std.specs.Prelude.{◌≡◌, ◌<◌, ℕ, IfOk, All, length, slice_index_or};
ghost use Rattle.hph_infer.specs.Team.{IsReady, IsBack, Packed, Unpacked};
ghost use Rattle.hph_infer.specs.declared.threads.Worker.{Worker};

use crate::turns::{Report, work};
use hph_src::Gate;
use hph_sys::System;
use hph_table::{Seat, Shared};
use std::alloc::{AllocError, Global};
use std::thread;
use std::thread::Threads;

/// What one worker is lent, and what it gives back.
#[derive(Drop)]
pub struct Worker<S> {
    /// Its seat.
    pub seat: Seat<S>,
    /// What it did.
    pub report: Result<Report, AllocError>,
}

/// Each worker works in a thread of its own, with this budget of turns.
pub fn team<R: Threads + Sync, S: System + Sync, G: Gate + Sync>(
    rt: &R,
    shared: &Shared<S>,
    system: &S,
    gate: &G,
    alloc: Global,
    budget: u64,
    workers: &mut [Worker<S>],
)
    requires system { shared.now.1.system.value ≡ system.now }
    requires some { 0 < length workers.old }
    requires ready { All (IsReady shared.now.0) workers.old }
    ensures len { length workers.new ≡ length workers.old }
    ensures each { (k : ℕ) (d : Worker S) → k < length workers.old → IsBack shared.now.0 budget (slice_index_or workers.old k d) (slice_index_or workers.new k d) }
{
    let count = workers.len();
    thread::for_each_mut(
        rt,
        workers,
        count,
        &|_, worker| {
            worker.report = work(alloc, shared, &mut worker.seat, system, gate, budget)
        },
    );
}

/// A worker for each seat.
pub fn pack<S>(alloc: Global, mut seats: Vec<Seat<S>>) -> Result<Vec<Worker<S>>, AllocError>
    ensures { IfOk result (λ v. Packed seats.items v.items) }
{
    let mut team = Vec::new(alloc);
    while !seats.is_empty() {
        team.push(Worker {
            seat: seats.remove(0),
            report: Err(AllocError),
        })?;
    }
    Ok(team)
}

/// The seats and the reports of all workers. Err where one had no memory.
pub fn unpack<S>(
    alloc: Global,
    mut team: Vec<Worker<S>>,
) -> Result<(Vec<Seat<S>>, Vec<Report>), AllocError>
    ensures { IfOk result (λ r. Unpacked team.items r.0.items r.1.items) }
{
    let mut seats = Vec::new(alloc);
    let mut reports = Vec::new(alloc);
    while !team.is_empty() {
        let Worker { seat, report } = team.remove(0);
        reports.push(report?)?;
        seats.push(seat)?;
    }
    Ok((seats, reports))
}
