ghost use Rattle.std.specs.Prelude.{◌≡◌, ℕ, IfOk, OnOk, IfErr, MatchResult};
ghost use Rattle.hph_wasm.specs.Instantiation.{globals_at_start, SegmentsFit, IsFirstMisfit};
ghost use Rattle.hph_winstance.specs.Instances.{IsInstance, IsFault, IsSegmentAt, IsNoMemory};

use crate::constants::globals_at_start;
use crate::misfits::first_misfit;
use crate::tables::{memory_at_start, table_at_start};
use hph_wasm::{Module, Value};
use sqlite_items::Items;
use std::alloc::Global;

/// The values of a module's globals, its memory, and its table of functions by their numbers.
#[derive(Debug, Drop)]
pub struct Instance {
    pub globals: Items<Value>,
    pub memory: Vec<u8>,
    pub table: Items<Option<u32>>,
}

/// Why a module has no instance.
#[derive(Clone, Copy, Debug, PartialEq, Eq)]
pub enum InstanceFault {
    /// The segment with this number doesn't end within its table or memory; element segments are counted first.
    Segment(usize),
    NoMemory,
}

/// What a run of the module begins with, or the first segment that doesn't end within its table or memory.
pub fn instantiate(alloc: Global, m: &Module) -> Result<Instance, InstanceFault>
    ensures fit { OnOk result (SegmentsFit m.now) }
    ensures made { IfOk result (IsInstance m.now) }
    ensures fault { IfErr result (IsFault m.now) }
    // With enough memory no other answer is possible.
    ensures accepted { SegmentsFit m.now → IfErr result IsNoMemory }
    ensures refused { (k : ℕ) → IsFirstMisfit m.now k → MatchResult result (λ _. ⊥) (IsSegmentAt k) }
{
    let Ok(globals) = globals_at_start(alloc, m) else {
        return Err(InstanceFault::NoMemory);
    };
    match first_misfit(m, globals.as_slice()) {
        Some(k) => Err(InstanceFault::Segment(k)),
        None => filled(alloc, m, globals),
    }
}

/// The instance of a module whose segments fit.
fn filled(alloc: Global, m: &Module, globals: Items<Value>) -> Result<Instance, InstanceFault>
    requires globals { globals ≡ globals_at_start m.now }
    requires fit { SegmentsFit m.now }
    ensures made { IfOk result (IsInstance m.now) }
    ensures fault { IfErr result IsNoMemory }
{
    let Ok(memory) = memory_at_start(alloc, m, globals.as_slice()) else {
        return Err(InstanceFault::NoMemory);
    };
    match table_at_start(alloc, m, globals.as_slice()) {
        Ok(table) => Ok(Instance {
            globals,
            memory,
            table,
        }),
        Err(_) => Err(InstanceFault::NoMemory),
    }
}
