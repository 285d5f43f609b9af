//! Tables and memories as segments leave them (Core Specification 1.0, 4.5.4).
ghost use Rattle.std.specs.Prelude.{◌≡◌, ◌≤◌, ◌+◌, ◌*◌, length, map, Some, IfOk, OnOk};
ghost use Rattle.hph_wasm.specs.Instantiation.{globals_at_start, zeros, empty_table, overwritten, with_segments, with_elements, first_size, memory_at_start, table_of};
ghost use Rattle.hph_winstance.specs.Instances.{DataFits, ElementsFit};

use crate::constants::offset_of;
use hph_wasm::{Module, Value};
use sqlite_items::Items;
use std::alloc::{AllocError, Global};

const PAGE_BYTES: usize = 65536;

/// Puts others in place of those from a place on.
fn overwrite<T: Copy>(all: &mut [T], place: usize, others: &[T])
    requires { place + length others.now ≤ length all.old }
    ensures { all.new ≡ overwritten all.old place others.now }
{
    all[place..place + others.len()].copy_from_slice(others);
}

/// So many pages of zeros.
#[tactic(auto, unfolding(hph_wasm::specs::Instantiation::zeros))]
fn zeros(alloc: Global, pages: u32) -> Result<Vec<u8>, AllocError>
    ensures { IfOk result (λ memory. memory.items ≡ zeros pages) }
{
    let mut memory = Vec::new(alloc);
    memory.resize(pages as usize * PAGE_BYTES, 0)?;
    Ok(memory)
}

/// Puts the bytes of the data segments into the memory.
fn put_segments(m: &Module, globals: &[Value], memory: &mut [u8])
    requires globals { globals.now ≡ globals_at_start m.now }
    requires fit { DataFits m.now }
    requires room { length memory.old ≡ first_size m.now.memories * 65536 }
    ensures { memory.new ≡ with_segments globals.now m.now.segments memory.old }
{
    for segment in m.segments.as_slice() {
        let place = offset_of(globals, segment.offset.as_slice()) as usize;
        overwrite(memory, place, segment.bytes.as_slice());
    }
}

/// The memory that a run begins with.
pub fn memory_at_start(alloc: Global, m: &Module, globals: &[Value]) -> Result<Vec<u8>, AllocError>
    requires globals { globals.now ≡ globals_at_start m.now }
    requires fit { DataFits m.now }
    ensures { IfOk result (λ memory. memory.items ≡ memory_at_start m.now) }
{
    match m.memories.get(0) {
        None => Ok(Vec::new(alloc)),
        Some(limits) => {
            let mut memory = zeros(alloc, limits.min)?;
            put_segments(m, globals, &mut memory);
            Ok(memory)
        }
    }
}

/// So many empty entries.
#[tactic(auto, unfolding(hph_wasm::specs::Instantiation::empty_table))]
fn empty_table(alloc: Global, size: u32) -> Result<Vec<Option<u32>>, AllocError>
    ensures { IfOk result (λ table. table.items ≡ empty_table size) }
{
    let mut table = Vec::new(alloc);
    table.resize(size as usize, None)?;
    Ok(table)
}

/// The entries of these functions.
fn entries(alloc: Global, funcs: &[u32]) -> Result<Vec<Option<u32>>, AllocError>
    ensures { IfOk result (λ entries. entries.items ≡ map Some funcs.now) }
{
    let mut entries = Vec::new(alloc);
    for f in funcs {
        entries.push(Some(*f))?;
    }
    Ok(entries)
}

/// Puts the functions of the element segments into the table.
fn put_elements(
    alloc: Global,
    m: &Module,
    globals: &[Value],
    table: &mut [Option<u32>],
) -> Result<(), AllocError>
    requires globals { globals.now ≡ globals_at_start m.now }
    requires fit { ElementsFit m.now }
    requires room { length table.old ≡ first_size m.now.tables }
    ensures { OnOk result (table.new ≡ with_elements globals.now m.now.elements table.old) }
{
    for element in m.elements.as_slice() {
        let entries = entries(alloc, element.funcs.as_slice())?;
        let place = offset_of(globals, element.offset.as_slice()) as usize;
        overwrite(table, place, entries.as_slice());
    }
    Ok(())
}

/// The table that a run begins with.
pub fn table_at_start(
    alloc: Global,
    m: &Module,
    globals: &[Value],
) -> Result<Items<Option<u32>>, AllocError>
    requires globals { globals.now ≡ globals_at_start m.now }
    requires fit { ElementsFit m.now }
    ensures { IfOk result (λ table. table ≡ table_of m.now) }
{
    match m.tables.get(0) {
        None => Ok(Items::new(alloc)),
        Some(limits) => {
            let mut table = empty_table(alloc, limits.min)?;
            put_elements(alloc, m, globals, &mut table)?;
            Ok(Items::from_vec(table))
        }
    }
}
