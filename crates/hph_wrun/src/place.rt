//! Where a machine stands: which function, and which of its instructions, counted by opcodes from 0.
ghost use Rattle.std.specs.Prelude.{◌≡◌, ◌+◌, ◌∷◌, List, drop, slice_get, IfOk};
ghost use Rattle.hph_wasm.specs.declared.instr.Instr.{Instr};
ghost use Rattle.hph_wasm.specs.declared.module.Module.{Module};
ghost use Rattle.hph_wasm.specs.Blocks.{else_list_size};
ghost use Rattle.hph_wasm.specs.Functions.{functions};
ghost use Rattle.hph_wasm.specs.Place.{body_size, size_outside};
ghost use Rattle.hph_wasm.specs.Rows.{list_size};
ghost use Rattle.hph_wstate.specs.Core.{after_of};
ghost use Rattle.hph_wstate.specs.Machine.{core};
ghost use Rattle.hph_wmach.specs.Program.{Tells};
ghost use Rattle.hph_wrun.specs.Places.{IsPlace};

use crate::counting::{opcode_count, sum};
use hph_wasm::{Host, Instr};
use hph_wmach::{Callee, Program};
use hph_wstate::{Entered, Machine, Side};
use sqlite_items::{Items, at};
use std::alloc::{AllocError, Global};

/// An instruction's place: the number of its function, and how many opcodes stand before it in that function's body.
#[derive(Clone, Copy, PartialEq, Eq)]
pub struct Place {
    pub function: u32,
    pub instruction: u64,
}

/// The opcodes between the instructions of a first branch and those behind its `if`.
fn opcodes_after_first(alloc: Global, other: &Option<Items<Instr>>) -> Result<u64, AllocError>
    ensures { IfOk result (λ count. count ≡ 1 + else_list_size other.now) }
{
    match other {
        None => Ok(1),
        Some(code) => sum(opcode_count(alloc, code.as_slice())?, 2),
    }
}

/// The opcodes between the instructions inside a block, which stands first, and those behind it.
fn opcodes_after(alloc: Global, side: Side, block: &Instr) -> Result<u64, AllocError>
    ensures { (rest : List Instr) → IfOk result (λ count. count ≡ after_of side (block.now ∷ rest)) }
{
    match side {
        Side::Then => match block {
            Instr::If(_, _, other) => opcodes_after_first(alloc, other),
            _ => Ok(1),
        },
        Side::Block | Side::Loop | Side::Else => Ok(1),
    }
}

/// The opcodes of a block's own that are left, and those behind it.
fn opcodes_outside(alloc: Global, label: Entered<'_>) -> Result<u64, AllocError>
    ensures { IfOk result (λ count. count ≡ after_of label.entry.side label.entry.here.now + list_size (drop 1 label.entry.here.now)) }
{
    match label.here {
        [] => Ok(1),
        [block, rest @ ..] => {
            let after = opcodes_after(alloc, label.side, block)?;
            sum(after, opcode_count(alloc, rest)?)
        }
    }
}

/// The opcodes that are left of the function that runs, its own `end` among them.
fn opcodes_left(alloc: Global, machine: &Machine<'_>) -> Result<u64, AllocError>
    ensures { IfOk result (λ count. count ≡ list_size (core machine.now).code + size_outside (core machine.now).labels) }
{
    let mut left = sum(opcode_count(alloc, machine.code())?, 1)?;
    for k in 0..machine.label_count() {
        match machine.label(k) {
            None => return Ok(left),
            Some(label) => left = sum(left, opcodes_outside(alloc, label)?)?,
        }
    }
    Ok(left)
}

/// The opcodes of a function's body with its `end`; a function of the host has none.
fn body_size<H: Host>(alloc: Global, program: &Program<'_>, f: u32) -> Result<u64, AllocError>
    ensures { (m : Module) → Tells H.meaning m program.now → IfOk result (λ count. count ≡ body_size (slice_get (functions m) f)) }
{
    match at(program.callees.as_slice(), f as usize) {
        None | Some(Callee::OfHost(_)) => Ok(0),
        Some(Callee::Own(own)) => sum(opcode_count(alloc, own.func.body.as_slice())?, 1),
    }
}

/// The place of the instruction that stands so many opcodes before the next one: where a trap is, if that has trapped. Outside of
/// all functions it is 0, 0.
pub fn place_of<H: Host>(
    alloc: Global,
    program: &Program<'_>,
    machine: &Machine<'_>,
    passed: u64,
) -> Result<Place, AllocError>
    ensures { (m : Module) → Tells H.meaning m program.now → IfOk result (IsPlace H.Stop m passed (core machine.now)) }
{
    match machine.function() {
        None => Ok(Place {
            function: 0,
            instruction: 0,
        }),
        Some(function) => {
            let left = sum(passed, opcodes_left(alloc, machine)?)?;
            let all = body_size::<H>(alloc, program, function)?;
            Ok(Place {
                function,
                instruction: all.saturating_sub(left),
            })
        }
    }
}
