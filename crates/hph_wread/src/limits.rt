//! Types of memories, tables and globals (Core Specification 1.0, 5.3.4 to 5.3.7).
ghost use Rattle.std.specs.Prelude.{◌≡◌, ◌<◌, ◌≤◌, Option, IfOk, IfErr};
ghost use Rattle.hph_wasm.specs.Leb128.{Unsigned};
ghost use Rattle.hph_wasm.specs.Grammar.{MemoryType, TableType, GlobalOf};
ghost use Rattle.hph_wasm.specs.Unsupported.{Any, AtNumber, Behind, LimitsByte, IsSmallMemory, IsSmallTable, StopsMemoryType, StopsTableType, StopsValueType, most_pages, most_entries};
ghost use Rattle.hph_wread.specs.Reading.{Took, Fails};

use crate::fault::Fault;
use crate::kinds::flag;
use crate::numbers::{fixed_byte, unsigned};
use crate::types::value_type;
use hph_wasm::{
    Feature, GlobalType, Limits, ValType, parts_stop_in_one_place, types_are_read_in_one_way,
};

/// The most pages that a memory may begin with.
const MOST_PAGES: u32 = 1024;

/// The most entries that a table may begin with.
const MOST_ENTRIES: u32 = 1048576;

/// The byte of a table's elements: functions.
const FUNC_REF: u8 = 0x70;

/// A memory's type (5.3.5).
pub fn memory_type(bytes: &[u8]) -> Result<(Limits, &[u8]), Fault>
    ensures read { IfOk result (λ r. Took (MemoryType r.0) bytes.now r.1.now) }
    ensures fit { IfOk result (λ r. IsSmallMemory r.0) }
    ensures stopped { IfErr result (λ e. Fails (Any MemoryType) StopsMemoryType bytes.now e) }
{
    let (limits, rest) = limits(bytes, MOST_PAGES, Feature::InitialMemorySize)?;
    Ok((limits, rest))
}

/// A table's type (5.3.6).
pub fn table_type(bytes: &[u8]) -> Result<(Limits, &[u8]), Fault>
    ensures read { IfOk result (λ r. Took (TableType r.0) bytes.now r.1.now) }
    ensures fit { IfOk result (λ r. IsSmallTable r.0) }
    ensures stopped { IfErr result (λ e. Fails (Any TableType) StopsTableType bytes.now e) }
{
    let behind = fixed_byte(bytes, FUNC_REF)?;
    let (limits, rest) = limits(behind, MOST_ENTRIES, Feature::InitialTableSize)?;
    Ok((limits, rest))
}

/// A least and a greatest size (5.3.4). A least one above `most` is left out.
fn limits(bytes: &[u8], most: u32, name: Feature) -> Result<(Limits, &[u8]), Fault>
    ensures read { IfOk result (λ r. Took (MemoryType r.0) bytes.now r.1.now) }
    ensures fit { IfOk result (λ r. r.0.min ≤ most) }
    ensures stopped { IfErr result (λ e. Fails (Any MemoryType) (Behind LimitsByte (AtNumber (λ n. most < n) name)) bytes.now e) }
{
    types_are_read_in_one_way();
    let (bounded, behind) = flag(bytes)?;
    let (min, rest) = least(behind, most, name)?;
    if bounded {
        let (max, rest) = unsigned(rest)?;
        return Ok((limits_of(min, Some(max)), rest));
    }
    Ok((limits_of(min, None), rest))
}

fn limits_of(min: u32, max: Option<u32>) -> Limits
    ensures least { result.min ≡ min }
    ensures greatest { result.max ≡ max }
{
    Limits { min, max }
}

/// A number that is at most `most`.
fn least(bytes: &[u8], most: u32, name: Feature) -> Result<(u32, &[u8]), Fault>
    ensures read { IfOk result (λ r. Took (Unsigned 32 r.0) bytes.now r.1.now) }
    ensures fit { IfOk result (λ r. r.0 ≤ most) }
    ensures stopped { IfErr result (λ e. Fails (Any (Unsigned 32)) (AtNumber (λ n. most < n) name) bytes.now e) }
{
    let (number, rest) = unsigned(bytes)?;
    if most < number {
        return Err(Fault::Unsupported(bytes.len(), name));
    }
    Ok((number, rest))
}

/// A global's type (5.3.7).
pub fn global_type(bytes: &[u8]) -> Result<(GlobalType, &[u8]), Fault>
    ensures read { IfOk result (λ r. Took (GlobalOf r.0) bytes.now r.1.now) }
    ensures stopped { IfErr result (λ e. Fails (Any GlobalOf) StopsValueType bytes.now e) }
{
    types_are_read_in_one_way();
    parts_stop_in_one_place();
    let (value, behind) = value_type(bytes)?;
    let (mutable, rest) = flag(behind)?;
    Ok((global_of(value, mutable), rest))
}

fn global_of(value: ValType, mutable: bool) -> GlobalType
    ensures value { result.value ≡ value }
    ensures mutable { result.mutable ≡ mutable }
{
    GlobalType { value, mutable }
}
