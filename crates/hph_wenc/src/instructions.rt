//! Instructions and expressions (Core Specification 1.0, 5.4).
ghost use Rattle.std.specs.Prelude.{◌≡◌, ◌<◌, ◌^◌, ◌++◌, ◌∷◌, length, flat_map, OnOk};
ghost use Rattle.hph_wasm.specs.Grammar.{result_byte};
ghost use Rattle.hph_wasm.specs.Leb128.{u32_bytes};
ghost use Rattle.hph_wasm.specs.Spelling.{vector_bytes, memory_argument_bytes, immediate_bytes, instr_bytes, expression_bytes};
ghost use Rattle.hph_wenc.specs.Code.{first_branch_bytes};
ghost use Rattle.hph_wenc.specs.Fits.{IndexFits, IndicesFit, MemArgFits, ImmediatesFit, InstrFits, ExpressionFits};

use crate::byte_codes::{ELSE, END, NO_RESULT, ONLY_TABLE};
use crate::opcodes::opcode_of;
use crate::put::{Put, put_indices};
use crate::types::value_type_code;
use hph_leb::{put_i32, put_i64, put_u32};
use hph_wasm::{BlockType, Instr, MemArg};
use std::alloc::AllocError;

/// Adds an expression, or what stands inside a block: instructions, and an end (5.4.6, 5.4.1).
#[cycle(instructions)]
pub fn put_expression(out: &mut Vec<u8>, body: &[Instr]) -> Result<(), AllocError>
    requires { length (expression_bytes body.now) < 2 ^ 32 }
    ensures put { OnOk result (out.new.items ≡ out.old.items ++ expression_bytes body.now) }
    ensures fit { OnOk result (ExpressionFits body.now) }
{
    put_instructions(out, body)?;
    out.push(END)?;
    Ok(())
}

#[cycle(instructions)]
fn put_instructions(out: &mut Vec<u8>, body: &[Instr]) -> Result<(), AllocError>
    requires { length (flat_map instr_bytes body.now) < 2 ^ 32 }
    ensures put { OnOk result (out.new.items ≡ out.old.items ++ flat_map instr_bytes body.now) }
    ensures fit { OnOk result (ExpressionFits body.now) }
{
    for instr in body {
        put_instruction(out, instr)?;
    }
    Ok(())
}

#[cycle(instructions)]
fn put_instruction(out: &mut Vec<u8>, instr: &Instr) -> Result<(), AllocError>
    requires { length (instr_bytes instr.now) < 2 ^ 32 }
    ensures put { OnOk result (out.new.items ≡ out.old.items ++ instr_bytes instr.now) }
    ensures fit { OnOk result (InstrFits instr.now) }
{
    out.push(opcode_of(instr))?;
    match instr {
        Instr::Block(ty, body) => put_block(out, *ty, body.as_slice()),
        Instr::Loop(ty, body) => put_block(out, *ty, body.as_slice()),
        Instr::If(ty, body, other) => match other {
            None => put_block(out, *ty, body.as_slice()),
            Some(other) => {
                put_first_branch(out, *ty, body.as_slice())?;
                put_expression(out, other.as_slice())
            }
        },
        _ => put_immediates(out, instr),
    }
}

/// Adds what stands behind the opcode of a block, of a loop, and of an `if` that has no `else` (5.4.1).
#[cycle(instructions)]
fn put_block(out: &mut Vec<u8>, ty: BlockType, body: &[Instr]) -> Result<(), AllocError>
    requires { length (result_byte ty.result ∷ expression_bytes body.now) < 2 ^ 32 }
    ensures put { OnOk result
        (out.new.items ≡ out.old.items ++ result_byte ty.result ∷ expression_bytes body.now) }
    ensures fit { OnOk result (ExpressionFits body.now) }
{
    out.push(block_type_code(ty))?;
    put_expression(out, body)
}

/// Adds what stands behind the opcode of an `if` up to its second branch: a type, the first branch and an `else` (5.4.1).
#[cycle(instructions)]
fn put_first_branch(out: &mut Vec<u8>, ty: BlockType, body: &[Instr]) -> Result<(), AllocError>
    requires { length (result_byte ty.result ∷ first_branch_bytes body.now) < 2 ^ 32 }
    ensures put { OnOk result
        (out.new.items ≡ out.old.items ++ result_byte ty.result ∷ first_branch_bytes body.now) }
    ensures fit { OnOk result (ExpressionFits body.now) }
{
    out.push(block_type_code(ty))?;
    put_instructions(out, body)?;
    out.push(ELSE)?;
    Ok(())
}

/// Adds what stands behind the opcode of an instruction that holds no others.
fn put_immediates(out: &mut Vec<u8>, instr: &Instr) -> Result<(), AllocError>
    requires { length (immediate_bytes instr.now) < 2 ^ 32 }
    ensures put { OnOk result (out.new.items ≡ out.old.items ++ immediate_bytes instr.now) }
    ensures fit { OnOk result (ImmediatesFit instr.now) }
{
    match instr {
        Instr::Br(index)
        | Instr::BrIf(index)
        | Instr::Call(index)
        | Instr::LocalGet(index)
        | Instr::LocalSet(index)
        | Instr::LocalTee(index)
        | Instr::GlobalGet(index)
        | Instr::GlobalSet(index) => put_u32(out, *index),
        Instr::BrTable(labels, label) => put_branch_table(out, labels.as_slice(), *label),
        Instr::CallIndirect(ty) => {
            put_u32(out, *ty)?;
            out.push(ONLY_TABLE)?;
            Ok(())
        }
        Instr::Load(_, at)
        | Instr::LoadNarrow(_, at)
        | Instr::Store(_, at)
        | Instr::StoreNarrow(_, at) => at.put(out),
        Instr::I32Const(value) => put_i32(out, *value),
        Instr::I64Const(value) => put_i64(out, *value),
        _ => Ok(()),
    }
}

/// Adds the labels of a table of branches, and the one for every greater number (5.4.1).
fn put_branch_table(out: &mut Vec<u8>, labels: &[u32], label: u32) -> Result<(), AllocError>
    requires { length (vector_bytes u32_bytes labels.now ++ u32_bytes label) < 2 ^ 32 }
    ensures put { OnOk result
        (out.new.items ≡ out.old.items ++ (vector_bytes u32_bytes labels.now ++ u32_bytes label)) }
    ensures fit { OnOk result (IndicesFit labels.now × IndexFits label) }
{
    put_indices(out, labels)?;
    put_u32(out, label)
}

impl Put for MemArg {
    ghost spelling = { memory_argument_bytes };

    ghost fits = { MemArgFits };

    fn put(&self, out: &mut Vec<u8>) -> Result<(), AllocError> {
        put_u32(out, self.align)?;
        put_u32(out, self.offset)
    }
}

/// The byte of what a block gives (5.3.2).
fn block_type_code(ty: BlockType) -> u8
    ensures { result ≡ result_byte ty.result }
{
    match ty.result {
        None => NO_RESULT,
        Some(value) => value_type_code(value),
    }
}
