//! Values printed to a sink.
ghost use Rattle.std.specs.Prelude.{◌≡◌, ◌≤◌, Err, map};
ghost use Rattle.hph_src.specs.Faults.{HasRisen};
ghost use Rattle.hph_php.specs.VarDump as php;
ghost use Rattle.hph_value.specs.Shown.{value_of};
ghost use Rattle.hph_builtin_dump.specs.Dumps.{left};
ghost use Rattle.hph_builtin_dump.specs.Prints.{Printed, Shows};

use crate::flush::{HostStop, flush, flush_long};
use crate::frame::{Frame, advance, enter};
use hph_src::Sink;
use hph_value::Value;
use std::alloc::Global;

/// Prints what is left of an array.
fn print_array<O: Sink>(
    alloc: Global,
    array: Frame<'_>,
    out: &mut O,
    buffer: &mut Vec<u8>,
) -> Result<(), HostStop>
    ensures printed { Printed result (left array.entry) (O.content out.old) (O.content out.new) buffer.old.items buffer.new.items }
    ensures never_falls { O.faults out.old ≤ O.faults out.new }
    ensures cause { result ≡ Err HostStop.WriteFault → HasRisen (O.faults out.old) (O.faults out.new) }
{
    let mut frames = Vec::new(alloc);
    let mut top = array;
    'pairs: loop {
        match advance(buffer, top, &mut frames) {
            Err(stop) => return Err(HostStop::from(stop)),
            Ok(None) => return Ok(()),
            Ok(Some(frame)) => top = frame,
        }
        match flush_long(out, buffer) {
            Err(stop) => return Err(stop),
            Ok(()) => {}
        }
    }
}

/// Prints a value.
fn print_value<O: Sink>(
    alloc: Global,
    value: &Value,
    out: &mut O,
    buffer: &mut Vec<u8>,
) -> Result<(), HostStop>
    ensures printed { Printed result (php.dump 0 (value_of value.now)) (O.content out.old) (O.content out.new) buffer.old.items buffer.new.items }
    ensures never_falls { O.faults out.old ≤ O.faults out.new }
    ensures cause { result ≡ Err HostStop.WriteFault → HasRisen (O.faults out.old) (O.faults out.new) }
{
    match enter(buffer, 0, value) {
        Err(stop) => Err(HostStop::from(stop)),
        Ok(None) => flush_long(out, buffer),
        Ok(Some(array)) => print_array(alloc, array, out, buffer),
    }
}

/// Prints values, one after the other.
fn print_values<O: Sink>(
    alloc: Global,
    values: &[Value],
    out: &mut O,
    buffer: &mut Vec<u8>,
) -> Result<(), HostStop>
    ensures printed { Printed result (php.dump_all (map value_of values.now)) (O.content out.old) (O.content out.new) buffer.old.items buffer.new.items }
    ensures never_falls { O.faults out.old ≤ O.faults out.new }
    ensures cause { result ≡ Err HostStop.WriteFault → HasRisen (O.faults out.old) (O.faults out.new) }
{
    'values: for value in values {
        match print_value(alloc, value, out, buffer) {
            Err(stop) => return Err(stop),
            Ok(()) => {}
        }
    }
    Ok(())
}

/// Prints values, one after the other (`var_dump`). `ObjectUse` for an object, where its line would begin: what stands before
/// it is printed. After any other stop a prefix is printed.
pub fn dump_all<O: Sink>(alloc: Global, values: &[Value], out: &mut O) -> Result<(), HostStop>
    ensures shows { Shows result (php.dump_all (map value_of values.now)) (O.content out.old) (O.content out.new) }
    ensures never_falls { O.faults out.old ≤ O.faults out.new }
    ensures cause { result ≡ Err HostStop.WriteFault → HasRisen (O.faults out.old) (O.faults out.new) }
{
    let mut buffer = Vec::new(alloc);
    match print_values(alloc, values, out, &mut buffer) {
        Ok(()) => flush(out, &mut buffer),
        Err(HostStop::Fatal(fatal)) => match flush(out, &mut buffer) {
            Ok(()) => Err(HostStop::Fatal(fatal)),
            Err(stop) => Err(stop),
        },
        Err(stop) => Err(stop),
    }
}
