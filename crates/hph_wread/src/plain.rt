//! Instructions that begin no block (Core Specification 1.0, 5.4).
ghost use Rattle.std.specs.Prelude.{◌≡◌, ◌∷◌, IfOk, IfErr};
ghost use Rattle.hph_wasm.specs.Codes.{opcode};
ghost use Rattle.hph_wasm.specs.InstructionGrammar.{MemoryArgument, Instruction};
ghost use Rattle.hph_wasm.specs.Unsupported.{Any, Nowhere};
ghost use Rattle.hph_wasm.specs.declared.instr.Instr.{Instr};
ghost use Rattle.hph_wread.specs.Forms.{StopsOpcode, IsPlain};
ghost use Rattle.hph_wread.specs.Reading.{Took, Fails};

use crate::fault::Fault;
use crate::forms::{access_form, bare, index_form, left_out_feature, with_argument, with_index};
use crate::numbers::{fixed_byte, signed_32, signed_64, unsigned};
use crate::part::vector;
use hph_wasm::{Instr, MemArg, opcodes_are_the_tables, types_are_read_in_one_way};
use std::alloc::Global;

/// The byte that stands for the only table.
const ONLY_TABLE: u8 = 0x00;

/// An instruction whose opcode was read, and begins no block.
pub fn plain<'a>(
    alloc: Global,
    bytes: &'a [u8],
    code: u8,
    behind: &'a [u8],
) -> Result<(Instr, &'a [u8]), Fault>
    requires first { bytes.now ≡ code ∷ behind.now }
    requires plain { IsPlain code }
    ensures read { IfOk result (λ r. Took (Instruction r.0) bytes.now r.1.now) }
    ensures stopped { IfErr result (λ e. Fails (Any Instruction) StopsOpcode bytes.now e) }
{
    opcodes_are_the_tables();
    if let Some(instr) = bare(code) {
        return Ok((instr, behind));
    }
    if let Some(form) = index_form(code) {
        let (index, rest) = unsigned(behind)?;
        return Ok((with_index(form, index), rest));
    }
    if let Some(form) = access_form(code) {
        let (at, rest) = memory_argument(behind)?;
        return Ok((with_argument(form, at), rest));
    }
    match code {
        0x0E => branch_table(alloc, bytes, behind),
        0x11 => indirect_call(bytes, behind),
        0x41 => constant_32(bytes, behind),
        0x42 => constant_64(bytes, behind),
        _ => Err(unknown(bytes, code, behind)),
    }
}

/// A memory argument (5.4.4).
fn memory_argument(bytes: &[u8]) -> Result<(MemArg, &[u8]), Fault>
    ensures read { IfOk result (λ r. Took (MemoryArgument r.0) bytes.now r.1.now) }
    ensures stopped { IfErr result (λ e. Fails (Any MemoryArgument) Nowhere bytes.now e) }
{
    types_are_read_in_one_way();
    let (align, behind) = unsigned(bytes)?;
    let (offset, rest) = unsigned(behind)?;
    Ok((argument_of(align, offset), rest))
}

fn argument_of(align: u32, offset: u32) -> MemArg
    ensures align { result.align ≡ align }
    ensures offset { result.offset ≡ offset }
{
    MemArg { align, offset }
}

/// A table of branches: labels, and the one for every greater number (5.4.1).
fn branch_table<'a>(
    alloc: Global,
    bytes: &'a [u8],
    behind: &'a [u8],
) -> Result<(Instr, &'a [u8]), Fault>
    requires { bytes.now ≡ 0x0E ∷ behind.now }
    ensures read { IfOk result (λ r. Took (Instruction r.0) bytes.now r.1.now) }
    ensures stopped { IfErr result (λ e. Fails (Any Instruction) StopsOpcode bytes.now e) }
{
    opcodes_are_the_tables();
    types_are_read_in_one_way();
    let (labels, rest) = vector::<u32>(alloc, behind)?;
    let (label, rest) = unsigned(rest)?;
    Ok((Instr::BrTable(labels, label), rest))
}

/// A call of a function of the table (5.4.1).
fn indirect_call<'a>(bytes: &'a [u8], behind: &'a [u8]) -> Result<(Instr, &'a [u8]), Fault>
    requires { bytes.now ≡ 0x11 ∷ behind.now }
    ensures read { IfOk result (λ r. Took (Instruction r.0) bytes.now r.1.now) }
    ensures stopped { IfErr result (λ e. Fails (Any Instruction) StopsOpcode bytes.now e) }
{
    opcodes_are_the_tables();
    types_are_read_in_one_way();
    let (ty, table) = unsigned(behind)?;
    let rest = fixed_byte(table, ONLY_TABLE)?;
    Ok((Instr::CallIndirect(ty), rest))
}

/// A constant of 32 bits (5.4.5).
fn constant_32<'a>(bytes: &'a [u8], behind: &'a [u8]) -> Result<(Instr, &'a [u8]), Fault>
    requires { bytes.now ≡ 0x41 ∷ behind.now }
    ensures read { IfOk result (λ r. Took (Instruction r.0) bytes.now r.1.now) }
    ensures stopped { IfErr result (λ e. Fails (Any Instruction) StopsOpcode bytes.now e) }
{
    opcodes_are_the_tables();
    let (value, rest) = signed_32(behind)?;
    Ok((Instr::I32Const(value), rest))
}

/// A constant of 64 bits (5.4.5).
fn constant_64<'a>(bytes: &'a [u8], behind: &'a [u8]) -> Result<(Instr, &'a [u8]), Fault>
    requires { bytes.now ≡ 0x42 ∷ behind.now }
    ensures read { IfOk result (λ r. Took (Instruction r.0) bytes.now r.1.now) }
    ensures stopped { IfErr result (λ e. Fails (Any Instruction) StopsOpcode bytes.now e) }
{
    opcodes_are_the_tables();
    let (value, rest) = signed_64(behind)?;
    Ok((Instr::I64Const(value), rest))
}

/// Why no instruction begins with this byte: it is the opcode of one that is left out, or of none.
fn unknown(bytes: &[u8], code: u8, behind: &[u8]) -> Fault
    requires first { bytes.now ≡ code ∷ behind.now }
    requires plain { IsPlain code }
    requires none { (i : Instr) → ¬ (opcode i ≡ code) }
    ensures { Fails (Any Instruction) StopsOpcode bytes.now result }
{
    match left_out_feature(code) {
        Some(feature) => Fault::Unsupported(bytes.len(), feature),
        None => Fault::Malformed(bytes.len()),
    }
}
