ghost use Rattle.std.specs.Prelude.{◌≡◌, ◌<◌, ◌+◌, ◌-◌, ◌^◌, ◌++◌, [], length, replicate, slice_get, IsTrue, IfOk, OnOk, OnErr};
ghost use Rattle.std.specs.Option.{option_copied};
ghost use Rattle.hph_wasm.specs.LocalRuns.{IsRising, EndsIn, counted, expanded, end_of};
ghost use Rattle.hph_wasm.specs.ModuleGrammar.{locals_of};

use crate::types::ValType;
use sqlite_items::{Items, at};
use std::alloc::{AllocError, Global};
use std::marker::Model;

/// Locals of one type, with how many locals there are up to the last of them.
#[derive(Clone, Copy, Debug)]
pub struct RunOfLocals {
    pub ty: ValType,
    pub end: u32,
}

/// The locals of a function, in runs of one type, so that they take memory by their runs. Contracts see the list of their types.
#[derive(Debug, Drop)]
pub struct Locals {
    runs: Items<RunOfLocals>,
}

impl Model for Locals {
    ghost use Rattle.std.specs.Prelude.{List};
    ghost use Rattle.hph_wasm.specs.declared.types.ValType.{ValType};

    ghost Value = { List ValType };

    ghost use Rattle.std.specs.Option.{option_copied};
    ghost use Rattle.hph_wasm.specs.LocalRuns.{IsRising, expanded};

    ghost view = { λ l. expanded l.runs };

    ghost invariant = { λ l. IsRising 0 l.runs };
}

impl Locals {
    /// No locals.
    pub fn new(alloc: Global) -> Locals
        ensures { result ≡ [] }
    {
        Locals {
            runs: Items::new(alloc),
        }
    }

    /// Adds so many locals of a type. A run takes memory only if the locals before it are of another type.
    #[tactic(auto, using(crate::proofs::LocalLaws::length_expanded))]
    pub fn push_run(&mut self, count: u32, ty: ValType) -> Result<(), AllocError>
        requires { length self.old + count < 2 ^ 32 }
        ensures pushed { OnOk result (self.new ≡ self.old ++ replicate count ty) }
        ensures kept { OnErr result (self.new ≡ self.old) }
    {
        if count == 0 {
            return Ok(());
        }
        push(&mut self.runs, count, ty)
    }

    /// How many locals there are.
    #[tactic(auto, using(crate::proofs::LocalLaws::length_expanded))]
    pub fn len(&self) -> u32
        ensures { result ≡ length self.now }
    {
        end_of(self.runs.as_slice())
    }

    /// The type of a local, by its number behind the parameters; none where there is no such local.
    pub fn get(&self, index: u32) -> Option<ValType>
        ensures { result ≡ slice_get self.now index }
    {
        type_at(self.runs.as_slice(), index)
    }

    /// The runs, to be gone over one by one.
    pub fn as_runs(&self) -> &[RunOfLocals]
        ensures made { expanded result.now ≡ self.now }
        ensures rising { IsRising 0 result.now }
    {
        self.runs.as_slice()
    }

    /// How many locals of which type stand one behind the other.
    pub fn runs(&self, alloc: Global) -> Result<Vec<(u32, ValType)>, AllocError>
        ensures { IfOk result (λ runs. locals_of runs.items ≡ self.now) }
    {
        counted(alloc, self.runs.as_slice())
    }
}

/// The last run.
fn last(runs: &[RunOfLocals]) -> Option<&RunOfLocals>
    ensures { option_copied result ≡ slice_get runs.now (length runs.now - 1) }
{
    runs.last()
}

/// How many locals there are.
#[tactic(auto, using(crate::proofs::LocalLaws::last_end, crate::proofs::LocalLaws::no_end))]
fn end_of(runs: &[RunOfLocals]) -> u32
    ensures { result ≡ end_of 0 runs.now }
{
    match last(runs) {
        Some(run) => run.end,
        None => 0,
    }
}

/// Whether the last local is of the type.
#[tactic(auto, using(crate::proofs::LocalLaws::ends_in))]
fn ends_in(runs: &[RunOfLocals], ty: ValType) -> bool
    ensures { IsTrue result → EndsIn ty runs.now }
{
    match last(runs) {
        Some(run) => run.ty == ty,
        None => false,
    }
}

/// Adds some locals of a type, to the last run if that is of the type.
#[tactic(auto, using(crate::proofs::LocalLaws::added, crate::proofs::LocalLaws::added_rises, crate::proofs::LocalLaws::lengthened, crate::proofs::LocalLaws::lengthened_rises))]
fn push(runs: &mut Items<RunOfLocals>, count: u32, ty: ValType) -> Result<(), AllocError>
    requires some { 0 < count }
    requires few { end_of 0 runs.old + count < 2 ^ 32 }
    requires rising { IsRising 0 runs.old }
    ensures rising { IsRising 0 runs.new }
    ensures pushed { OnOk result (expanded runs.new ≡ expanded runs.old ++ replicate count ty) }
    ensures kept { OnErr result (runs.new ≡ runs.old) }
{
    let end = end_of(runs.as_slice()) + count;
    let run = RunOfLocals { ty, end };
    if ends_in(runs.as_slice(), ty) {
        runs.set(runs.len() - 1, run);
        Ok(())
    } else {
        runs.push(run)
    }
}

/// The type of a local, in time of the logarithm of the number of runs.
fn type_at(runs: &[RunOfLocals], index: u32) -> Option<ValType>
    requires { IsRising 0 runs.now }
    ensures { result ≡ slice_get (expanded runs.now) index }
{
    let place = runs.partition_point(|run| run.end <= index);
    match at(runs, place) {
        Some(run) => Some(run.ty),
        None => None,
    }
}

/// Each run with the number of its locals in place of its end.
fn counted(alloc: Global, runs: &[RunOfLocals]) -> Result<Vec<(u32, ValType)>, AllocError>
    requires { IsRising 0 runs.now }
    ensures { IfOk result (λ counts. counts.items ≡ counted 0 runs.now) }
{
    let mut counts = Vec::new(alloc);
    let mut from = 0;
    let mut left = runs;
    while let [run, behind @ ..] = left {
        counts.push((run.end - from, run.ty))?;
        from = run.end;
        left = behind;
    }
    Ok(counts)
}
