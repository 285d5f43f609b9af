ghost use Rattle.std.specs.Prelude.{◌<◌, ◌≤◌};

use hph_infer::infer;
use hph_src::NoGate;
use hph_sys::examples::Two;
use hph_type::{Kind, Ty};
use std::alloc::Global;
use std::test::Fail;
use std::thread::Threads;

// True where both cells of `Two` are int, as its least typing has it, and each worker has a report.
fn infers_int<R: Threads + Sync>(rt: &R, alloc: Global, workers: u32, budget: u64) -> bool
    requires { (0 < workers) × (workers ≤ 64) }
{
    let Ok(two) = Two::new(alloc) else {
        return false;
    };
    let Ok(done) = infer(rt, alloc, &two, workers, &NoGate, budget) else {
        return false;
    };
    let int = Ty::only(Kind::Int);
    done.reports.len() == workers as usize
        && done.typing.len() == 2
        && done.typing[0] == int
        && done.typing[1] == int
}

#[test]
fn one_worker_infers_int(rt: HostRuntime) -> Result<(), Fail> {
    assert!(rt; infers_int(&rt, rt.alloc(), 1, 1000));
    Ok(())
}

#[test]
fn two_workers_infer_int(rt: HostRuntime) -> Result<(), Fail> {
    assert!(rt; infers_int(&rt, rt.alloc(), 2, 1000));
    Ok(())
}

#[test]
fn eight_workers_infer_int(rt: HostRuntime) -> Result<(), Fail> {
    assert!(rt; infers_int(&rt, rt.alloc(), 8, 1000));
    Ok(())
}

// With no turns the sweep does all.
#[test]
fn the_sweep_infers_int(rt: HostRuntime) -> Result<(), Fail> {
    assert!(rt; infers_int(&rt, rt.alloc(), 2, 0));
    Ok(())
}
