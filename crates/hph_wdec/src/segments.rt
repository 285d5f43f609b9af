//! Segments of tables and of memories (Core Specification 1.0, 5.5.12 and 5.5.14).
ghost use Rattle.std.specs.Prelude.{IfOk, IfErr};
ghost use Rattle.hph_wasm.specs.ModuleGrammar.{Elements, Data};
ghost use Rattle.hph_wasm.specs.Unsupported.{Any, HasShallowEntry, HasShallowPlace, StopsOffset};
ghost use Rattle.hph_wread.specs.Reading.{Took, Fails};

use crate::entries::EntryForm;
use hph_wasm::{
    Element, Segment, instructions_are_read_in_one_way, parts_stop_in_one_place,
    sections_are_read_in_one_way, types_are_read_in_one_way,
};
use hph_wread::{Fault, counted_bytes, expression, unsigned, vector};
use sqlite_items::Items;
use std::alloc::Global;

/// Segments of tables (5.5.12).
pub struct ElementForm;

impl EntryForm for ElementForm {
    ghost use Rattle.hph_wasm.specs.ModuleGrammar.{Elements};
    ghost use Rattle.hph_wasm.specs.Unsupported.{HasShallowEntry, StopsOffset};

    type Entry = Element;

    ghost grammar = { Elements };

    ghost fits = { HasShallowEntry };

    ghost stop = { StopsOffset };

    fn read_in_one_way() {
        sections_are_read_in_one_way();
        parts_stop_in_one_place();
    }

    fn read_entry(alloc: Global, bytes: &[u8]) -> Result<(Element, &[u8]), Fault> {
        element(alloc, bytes)
    }
}

/// A table's number, the place of the first entry, and the functions from there on.
fn element(alloc: Global, bytes: &[u8]) -> Result<(Element, &[u8]), Fault>
    ensures read { IfOk result (λ r. Took (Elements r.0) bytes.now r.1.now) }
    ensures fit { IfOk result (λ r. HasShallowEntry r.0) }
    ensures stopped { IfErr result (λ e. Fails (Any Elements) StopsOffset bytes.now e) }
{
    types_are_read_in_one_way();
    instructions_are_read_in_one_way();
    parts_stop_in_one_place();
    let (table, behind) = unsigned(bytes)?;
    let (offset, behind) = expression(alloc, behind)?;
    let (funcs, rest) = vector::<u32>(alloc, behind)?;
    Ok((
        Element {
            table,
            offset,
            funcs,
        },
        rest,
    ))
}

/// Segments of memories (5.5.14).
pub struct SegmentForm;

impl EntryForm for SegmentForm {
    ghost use Rattle.hph_wasm.specs.ModuleGrammar.{Data};
    ghost use Rattle.hph_wasm.specs.Unsupported.{HasShallowPlace, StopsOffset};

    type Entry = Segment;

    ghost grammar = { Data };

    ghost fits = { HasShallowPlace };

    ghost stop = { StopsOffset };

    fn read_in_one_way() {
        sections_are_read_in_one_way();
        parts_stop_in_one_place();
    }

    fn read_entry(alloc: Global, bytes: &[u8]) -> Result<(Segment, &[u8]), Fault> {
        segment(alloc, bytes)
    }
}

/// A memory's number, the place of the first byte, and the bytes from there on.
fn segment(alloc: Global, bytes: &[u8]) -> Result<(Segment, &[u8]), Fault>
    ensures read { IfOk result (λ r. Took (Data r.0) bytes.now r.1.now) }
    ensures fit { IfOk result (λ r. HasShallowPlace r.0) }
    ensures stopped { IfErr result (λ e. Fails (Any Data) StopsOffset bytes.now e) }
{
    types_are_read_in_one_way();
    instructions_are_read_in_one_way();
    parts_stop_in_one_place();
    let (memory, behind) = unsigned(bytes)?;
    let (offset, behind) = expression(alloc, behind)?;
    let (these, rest) = counted_bytes(behind)?;
    let bytes = Items::from_slice(alloc, these)?;
    Ok((
        Segment {
            memory,
            offset,
            bytes,
        },
        rest,
    ))
}
