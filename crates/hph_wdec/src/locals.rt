//! The locals of a function, in runs of one type (Core Specification 1.0, 5.5.13).
ghost use Rattle.std.specs.Prelude.{◌≡◌, ◌≤◌, ◌+◌, IfOk, IfErr};
ghost use Rattle.hph_wasm.specs.ModuleGrammar.{LocalRun, Locals};
ghost use Rattle.hph_wasm.specs.Unsupported.{Any, AreFew, StopsLocals, StopsRun, StopsRuns, most_locals};
ghost use Rattle.hph_wread.specs.Counted.{Counted};
ghost use Rattle.hph_wread.specs.Reading.{Took, Fails};
ghost use Rattle.hph_wdec.specs.Locals.{RunsOf};

use hph_wasm::{
    Feature, ValType, parts_stop_in_one_place, sections_are_read_in_one_way,
    types_are_read_in_one_way,
};
use hph_wread::{Fault, unsigned, value_type};
use std::alloc::Global;

/// The most locals that a function may have beside its parameters.
const MOST_LOCALS: u32 = 1048576;

/// The locals of a function, behind the number of runs.
pub fn locals(alloc: Global, bytes: &[u8]) -> Result<(hph_wasm::Locals, &[u8]), Fault>
    ensures read { IfOk result (λ r. Took (Locals r.0) bytes.now r.1.now) }
    ensures fit { IfOk result (λ r. AreFew r.0) }
    ensures stopped { IfErr result (λ e. Fails (Any Locals) StopsLocals bytes.now e) }
{
    types_are_read_in_one_way();
    let (count, behind) = unsigned(bytes)?;
    let (locals, rest) = runs(alloc, count, behind)?;
    Ok((locals, rest))
}

/// The locals that so many runs make.
fn runs(alloc: Global, count: u32, bytes: &[u8]) -> Result<(hph_wasm::Locals, &[u8]), Fault>
    ensures read { IfOk result (λ r. Took (RunsOf count r.0) bytes.now r.1.now) }
    ensures fit { IfOk result (λ r. AreFew r.0) }
    ensures stopped { IfErr result (λ e. Fails (Counted LocalRun count) (StopsRuns count) bytes.now e) }
{
    sections_are_read_in_one_way();
    types_are_read_in_one_way();
    parts_stop_in_one_place();
    let mut locals = hph_wasm::Locals::new(alloc);
    let mut rest = bytes;
    for _ in 0..count {
        let (number, ty, after) = run(locals.len(), rest)?;
        locals.push_run(number, ty)?;
        rest = after;
    }
    Ok((locals, rest))
}

/// A run of locals behind so many others: their number and their type, and what stands behind them.
fn run(total: u32, bytes: &[u8]) -> Result<(u32, ValType, &[u8]), Fault>
    requires { total ≤ most_locals }
    ensures read { IfOk result (λ r. Took (LocalRun (r.0, r.1)) bytes.now r.2.now) }
    ensures few { IfOk result (λ r. total + r.0 ≤ most_locals) }
    ensures stopped { IfErr result (λ e. Fails (Any LocalRun) (StopsRun total) bytes.now e) }
{
    types_are_read_in_one_way();
    let (number, behind) = unsigned(bytes)?;
    if MOST_LOCALS - total < number {
        return Err(Fault::Unsupported(bytes.len(), Feature::LocalCount));
    }
    let (ty, rest) = value_type(behind)?;
    Ok((number, ty, rest))
}
