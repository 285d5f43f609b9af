//! Calls (Core Specification 1.0, 4.4.5.10, 4.4.5.11 and 4.4.7).
ghost use Rattle.std.specs.Prelude.{◌≡◌, Some, length, slice_get};
ghost use Rattle.hph_wasm.specs.Functions.{Defined, functions};
ghost use Rattle.hph_wasm.specs.declared.module.Module.{Module};
ghost use Rattle.hph_wstate.specs.Core.{count};
ghost use Rattle.hph_wstate.specs.Machine.{core};
ghost use Rattle.hph_wmach.specs.Program.{Tells};
ghost use Rattle.hph_wmach.specs.Reached.{InvokedIn, StepsIn};

use crate::next::Next;
use crate::program::{OwnFunction, Program};
use hph_wasm::{Host, Instr};
use hph_wstate::{Machine, pop_i32};
use std::alloc::Global;

/// `call_indirect`.
pub fn call_indirect<H: Host>(program: &Program<'_>, machine: &mut Machine<'_>, number: u32) -> Next
    ensures { (m : Module) → Tells H.meaning m program.now →
        StepsIn H.meaning m (Instr.CallIndirect number) (core machine.old) result (core machine.new) }
{
    match pop_i32(machine) {
        None => Next::Traps,
        Some(place) => match program.entry::<H>(place, number) {
            None => Next::Traps,
            Some(f) => Next::Calls(f),
        },
    }
}

/// The second reduction of a call of a function of the module's own.
pub fn enter<'m, H: Host>(
    alloc: Global,
    machine: &mut Machine<'m>,
    f: u32,
    own: &OwnFunction<'m>,
) -> Next
    ensures { (m : Module) → slice_get (functions m) f ≡ Some (Defined own.now.func.now) →
        slice_get m.types own.now.func.now.ty ≡ Some own.now.ty.now → count own.now.gives ≡ length own.now.ty.now.results →
        InvokedIn H.meaning m f (core machine.old) result (core machine.new) }
{
    if !machine.holds(own.ty.params.as_slice()) {
        return Next::Traps;
    }
    match machine.call(alloc, f, own.gives, own.ty.params.len(), own.func) {
        Ok(true) => Next::Goes,
        Ok(false) => Next::Traps,
        Err(_) => Next::NoMemory,
    }
}
