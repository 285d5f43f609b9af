//! Instructions, the blocks that they begin, and expressions (Core Specification 1.0, 5.4).
//! Blocks that aren't closed yet are kept in a list, and not in calls, so reading takes no more of the stack for them.
ghost use Rattle.std.specs.Prelude.{◌≡◌, ◌<◌, ◌∷◌, ℕ, suc, List, length, IfOk, IfErr, OnOk};
ghost use Rattle.hph_wasm.specs.Codes.{else_code, end_code};
ghost use Rattle.hph_wasm.specs.InstructionGrammar.{Instruction, Expression};
ghost use Rattle.hph_wasm.specs.Unsupported.{Any, IsShallowExpression, StopsExpression};
ghost use Rattle.hph_wread.specs.Forms.{StopsInside, block_code};
ghost use Rattle.hph_wread.specs.InstructionLaws.{InstructionLaws};
ghost use Rattle.hph_wread.specs.Nesting.{Heading, Nested, Reached};
ghost use Rattle.hph_wread.specs.Reading.{Took, Fails};
ghost use Rattle.hph_wread.specs.declared.nest.Opening.TheVariants.{Head};

use crate::fault::Fault;
use crate::forms::{BlockForm, block_form};
use crate::nest::{
    Nest, Opening, Step, begin_block, end_block, first_branch, into_body, is_full, leave, new_nest,
    push_instruction,
};
use crate::numbers::first_byte;
use crate::plain::plain;
use crate::types::block_type;
use hph_wasm::{
    BlockType, Feature, Instr, instructions_are_read_in_one_way, opcodes_are_the_tables,
    parts_stop_in_one_place, types_are_read_in_one_way,
};
use sqlite_items::Items;
use std::alloc::Global;

/// An expression: instructions and an end (5.4.6).
pub fn expression(alloc: Global, bytes: &[u8]) -> Result<(Items<Instr>, &[u8]), Fault>
    ensures read { IfOk result (λ r. Took (Expression r.0) bytes.now r.1.now) }
    ensures fit { IfOk result (λ r. IsShallowExpression r.0) }
    ensures stopped { IfErr result (λ e. Fails (Any Expression) StopsExpression bytes.now e) }
{
    let mut nest = new_nest(alloc);
    let mut rest = bytes;
    'instructions: loop {
        let (step, after) = advance(alloc, &mut nest, rest)?;
        match step {
            Step::Inside => rest = after,
            Step::Ended => return Ok((into_body(nest), after)),
        }
    }
}

/// Reads an instruction that begins no block, or what opens or closes one, or the end of the expression.
fn advance<'a>(alloc: Global, nest: &mut Nest, bytes: &'a [u8]) -> Result<(Step, &'a [u8]), Fault>
    ensures read { IfOk result (λ r. (whole : List ℕ) → Took (Nested nest.old) whole bytes.now → Took (Reached r.0 nest.new) whole r.1.now) }
    ensures shorter { IfOk result (λ r. length r.1.now < length bytes.now) }
    ensures stopped { IfErr result (λ e. (whole : List ℕ) → Took (Nested nest.old) whole bytes.now → Fails (Any Expression) StopsExpression whole e) }
{
    instruction_laws();
    match first_byte(bytes) {
        Some((0x0B, rest)) => {
            let step = end_block(nest)?;
            Ok((step, rest))
        }
        Some((0x05, rest)) => {
            begin_else(alloc, nest, bytes, rest)?;
            Ok((Step::Inside, rest))
        }
        Some((code, behind)) => {
            let rest = instruction(alloc, nest, bytes, code, behind)?;
            Ok((Step::Inside, rest))
        }
        None => Err(Fault::Malformed(bytes.len())),
    }
}

/// Behind the first branch of an `if` stands its second one.
fn begin_else(alloc: Global, nest: &mut Nest, bytes: &[u8], rest: &[u8]) -> Result<(), Fault>
    requires { bytes.now ≡ else_code ∷ rest.now }
    ensures read { OnOk result ((whole : List ℕ) → Took (Nested nest.old) whole bytes.now → Took (Nested nest.new) whole rest.now) }
    ensures stopped { IfErr result (λ e. (whole : List ℕ) → Took (Nested nest.old) whole bytes.now → Fails (Any Expression) StopsExpression whole e) }
{
    instruction_laws();
    let Some((opening, first)) = leave(nest) else {
        return Err(Fault::Malformed(bytes.len()));
    };
    let Some(ty) = first_branch(&opening) else {
        return Err(Fault::Malformed(bytes.len()));
    };
    begin_block(alloc, nest, Opening::Else(ty, first))?;
    Ok(())
}

/// An instruction that begins no block, or what opens one.
fn instruction<'a>(
    alloc: Global,
    nest: &mut Nest,
    bytes: &'a [u8],
    code: u8,
    behind: &'a [u8],
) -> Result<&'a [u8], Fault>
    requires first { bytes.now ≡ code ∷ behind.now }
    requires inside { ¬ (code ≡ end_code) × ¬ (code ≡ else_code) }
    ensures read { IfOk result (λ rest. (whole : List ℕ) → Took (Nested nest.old) whole bytes.now → Took (Nested nest.new) whole rest.now) }
    ensures shorter { IfOk result (λ rest. length rest.now < length bytes.now) }
    ensures stopped { IfErr result (λ e. (whole : List ℕ) → Took (Nested nest.old) whole bytes.now → Fails (Any Expression) StopsExpression whole e) }
{
    instruction_laws();
    match block_form(code) {
        Some(form) => open_block(alloc, nest, bytes, form, behind),
        None => {
            let (instr, rest) = plain(alloc, bytes, code, behind)?;
            push_instruction(nest, instr)?;
            Ok(rest)
        }
    }
}

/// One more block, unless as many are open as may be.
fn open_block<'a>(
    alloc: Global,
    nest: &mut Nest,
    bytes: &'a [u8],
    form: BlockForm,
    behind: &'a [u8],
) -> Result<&'a [u8], Fault>
    requires { bytes.now ≡ block_code form ∷ behind.now }
    ensures read { IfOk result (λ rest. (whole : List ℕ) → Took (Nested nest.old) whole bytes.now → Took (Nested nest.new) whole rest.now) }
    ensures shorter { IfOk result (λ rest. length rest.now < length bytes.now) }
    ensures stopped { IfErr result (λ e. (whole : List ℕ) → Took (Nested nest.old) whole bytes.now → Fails (Any Expression) StopsExpression whole e) }
{
    instruction_laws();
    if is_full(nest) {
        return Err(Fault::Unsupported(bytes.len(), Feature::BlockDepth));
    }
    let (ty, rest) = head(bytes, form, behind)?;
    begin_block(alloc, nest, Opening::Head(form, ty))?;
    Ok(rest)
}

/// The opcode of a block that may be open, and the type of what it gives.
fn head<'a>(
    bytes: &'a [u8],
    form: BlockForm,
    behind: &'a [u8],
) -> Result<(BlockType, &'a [u8]), Fault>
    requires { bytes.now ≡ block_code form ∷ behind.now }
    ensures read { IfOk result (λ r. Took (Heading (Head form r.0)) bytes.now r.1.now) }
    ensures stopped { IfErr result (λ e. (room : ℕ) → Fails (Any Instruction) (StopsInside (suc room)) bytes.now e) }
{
    instruction_laws();
    let (ty, rest) = block_type(behind)?;
    Ok((ty, rest))
}

/// Instructions are read in one way, and stop a reader in one place. Does nothing.
fn instruction_laws()
    ensures { InstructionLaws }
{
    opcodes_are_the_tables();
    types_are_read_in_one_way();
    instructions_are_read_in_one_way();
    parts_stop_in_one_place();
}
