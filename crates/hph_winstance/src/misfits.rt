//! Whether segments end within their table and memory (Core Specification 1.0, 4.5.4).
ghost use Rattle.std.specs.Prelude.{◌≡◌, ◌<◌, ◌^◌, map, IfSome};
ghost use Rattle.hph_wasm.specs.Instantiation.{globals_at_start, first_size, IsWithin, element_placement, segment_placement};
ghost use Rattle.hph_winstance.specs.Firsts.{Tests, FirstTold};
ghost use Rattle.hph_winstance.specs.Instances.{MisfitTold};

use crate::constants::offset_of;
use hph_wasm::{Element, Limits, Module, Segment, Value};

const PAGE_BYTES: u64 = 65536;

/// The first segment, by number, that doesn't end within its table or memory: the element segments stand before the data segments.
pub fn first_misfit(m: &Module, globals: &[Value]) -> Option<usize>
    requires { globals.now ≡ globals_at_start m.now }
    ensures { MisfitTold m.now result }
{
    match misfit_element(m, globals) {
        Some(k) => Some(k),
        None => match misfit_data(m, globals) {
            Some(k) => Some(m.elements.as_slice().len() + k),
            None => None,
        },
    }
}

/// The size that the first of these begins with.
fn first_size(limits: &[Limits]) -> u32
    ensures { result ≡ first_size limits.now }
{
    match limits {
        [] => 0,
        [first, ..] => first.min,
    }
}

/// Whether so many end within the room, from an offset on.
fn is_within(offset: u64, count: usize, room: u64) -> bool
    ensures { Tests IsWithin (record { offset = offset; count = count; room = room }) result }
{
    let count = count as u64;
    count <= room && offset <= room - count
}

/// Whether an element segment ends within the table.
fn element_fits(m: &Module, globals: &[Value], element: &Element) -> bool
    requires { globals.now ≡ globals_at_start m.now }
    ensures { Tests IsWithin (element_placement m.now element.now) result }
{
    let room = u64::from(first_size(m.tables.as_slice()));
    let offset = offset_of(globals, element.offset.as_slice());
    is_within(offset, element.funcs.len(), room)
}

/// Whether a data segment ends within the memory.
fn segment_fits(m: &Module, globals: &[Value], segment: &Segment) -> bool
    requires { globals.now ≡ globals_at_start m.now }
    ensures { Tests IsWithin (segment_placement m.now segment.now) result }
{
    let room = u64::from(first_size(m.memories.as_slice())) * PAGE_BYTES;
    let offset = offset_of(globals, segment.offset.as_slice());
    is_within(offset, segment.bytes.len(), room)
}

/// The first element segment that doesn't end within the table.
fn misfit_element(m: &Module, globals: &[Value]) -> Option<usize>
    requires { globals.now ≡ globals_at_start m.now }
    ensures { FirstTold IsWithin (map (element_placement m.now) m.now.elements) result }
{
    for (k, element) in m.elements.as_slice().iter().enumerate() {
        if !element_fits(m, globals, element) {
            return Some(k);
        }
    }
    None
}

/// The first data segment that doesn't end within the memory.
fn misfit_data(m: &Module, globals: &[Value]) -> Option<usize>
    requires { globals.now ≡ globals_at_start m.now }
    ensures told { FirstTold IsWithin (map (segment_placement m.now) m.now.segments) result }
    ensures small { IfSome result (λ k. k < 2 ^ 62) }
{
    for (k, segment) in m.segments.as_slice().iter().enumerate() {
        if !segment_fits(m, globals, segment) {
            return Some(k);
        }
    }
    None
}
