//! Locals, in runs of one type (Core Specification 1.0, 5.5.13).
ghost use Rattle.std.specs.Prelude.{◌≡◌, ◌<◌, ◌^◌, ◌+◌, ◌++◌, length, reverse, All, IfOk, OnOk};
ghost use Rattle.hph_wasm.specs.Spelling.{run_bytes, runs_of};
ghost use Rattle.hph_wenc.specs.Runs.{with_locals};

use crate::put::Put;
use crate::types::value_type_code;
use hph_leb::put_u32;
use hph_wasm::{Locals, ValType};
use std::alloc::{AllocError, Global};
use std::marker::Model;

/// Locals of one type, and how many there are. Contracts see the two as a pair.
#[derive(Drop)]
pub struct LocalRun {
    count: u32,
    ty: ValType,
}

impl Model for LocalRun {
    ghost use Rattle.std.specs.Prelude.{ℕ};
    ghost use Rattle.hph_wasm.specs.declared.types.ValType.{ValType};

    ghost Value = { ℕ × ValType };

    ghost view = { λ run. (run.count, run.ty) };
}

impl Put for LocalRun {
    ghost spelling = { run_bytes };

    ghost fits = { λ _. Unit {0} };

    fn put(&self, out: &mut Vec<u8>) -> Result<(), AllocError> {
        put_u32(out, self.count)?;
        self.ty.put(out)
    }
}

/// The longest runs of equal locals, in time of the number of runs that the locals are kept in.
pub fn local_runs(alloc: Global, locals: &Locals) -> Result<Vec<LocalRun>, AllocError>
    requires { length locals.now < 2 ^ 32 }
    ensures { IfOk result (λ runs. runs.items ≡ runs_of locals.now) }
{
    let mut kept = locals.runs(alloc)?;
    let mut runs = Vec::new(alloc);
    while let Some((count, ty)) = kept.pop() {
        if count > 0 {
            put_run(&mut runs, count, ty)?;
        }
    }
    runs.reverse();
    Ok(runs)
}

/// Puts some locals of a type before runs that are held the last one first.
fn put_run(runs: &mut Vec<LocalRun>, count: u32, ty: ValType) -> Result<(), AllocError>
    requires { All (λ run. run.0 + count < 2 ^ 32) runs.old.items }
    ensures { OnOk result (reverse runs.new.items ≡ with_locals count ty (reverse runs.old.items)) }
{
    let mut count = count;
    if let Some(run) = runs.pop() {
        if run.ty == ty {
            count += run.count;
        } else {
            runs.push(run)?;
        }
    }
    runs.push(LocalRun { count, ty })?;
    Ok(())
}
