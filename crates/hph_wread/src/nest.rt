//! Blocks that aren't closed yet (Core Specification 1.0, 5.4.1).
ghost use Rattle.std.specs.Prelude.{◌≡◌, ◌<◌, ◌≤◌, [], ◌∷◌, ◌++◌, List, ℕ, suc, length, MatchBool, MatchOption, IfOk, OnOk};
ghost use Rattle.hph_wasm.specs.Grammar.{◌⊳◌, Each};
ghost use Rattle.hph_wasm.specs.Codes.{end_code};
ghost use Rattle.hph_wasm.specs.InstructionGrammar.{Instruction, Expression};
ghost use Rattle.hph_wasm.specs.declared.types.BlockType.{BlockType};
ghost use Rattle.hph_wasm.specs.BlockDepth.{IsShallow, AreShallow};
ghost use Rattle.hph_wasm.specs.Unsupported.{most_blocks};
ghost use Rattle.hph_wread.specs.Nesting.{Heading, OpensShallow, StaysShallow, MayOpen, WasOpen, Nested, Reached};
ghost use Rattle.hph_wread.specs.Reading.{Took};
ghost use Rattle.hph_wread.specs.declared.forms.BlockForm.TheVariants.{If};
ghost use Rattle.hph_wread.specs.declared.nest.Frame.{Frame};
ghost use Rattle.hph_wread.specs.declared.nest.Opening.TheVariants.{Head};

use crate::forms::BlockForm;
use hph_wasm::{BlockType, Instr};
use sqlite_items::Items;
use std::alloc::{AllocError, Global};
use std::mem;

/// The most blocks, loops and ifs that may be open at once.
const MOST_BLOCKS: usize = 4096;

/// What stands before the instructions of a block, or of the second branch of an `if`.
#[derive(Debug, Drop)]
pub enum Opening {
    Head(BlockForm, BlockType),
    /// With the instructions of the first branch.
    Else(BlockType, Items<Instr>),
}

/// A block that isn't closed yet, behind the instructions before it.
#[derive(Debug, Drop)]
pub struct Frame {
    pub before: Items<Instr>,
    pub opening: Opening,
}

/// The blocks that aren't closed yet, from the outermost on, and the instructions of the innermost.
#[derive(Debug, Drop)]
pub struct Nest {
    pub around: Items<Frame>,
    pub body: Items<Instr>,
}

/// Whether an expression goes on.
#[derive(Clone, Copy, Debug, PartialEq, Eq)]
pub enum Step {
    Inside,
    Ended,
}

/// An expression of which nothing was read.
pub fn new_nest(alloc: Global) -> Nest
    ensures { (bytes : List ℕ) → Took (Nested result) bytes bytes }
{
    Nest {
        around: Items::new(alloc),
        body: Items::new(alloc),
    }
}

/// The instructions of the innermost block.
pub fn into_body(nest: Nest) -> Items<Instr>
    ensures { result ≡ nest.body }
{
    let Nest { body, .. } = nest;
    body
}

/// One more instruction.
pub fn push_instruction(nest: &mut Nest, instr: Instr) -> Result<(), AllocError>
    ensures { OnOk result ((whole bytes rest : List ℕ) → Took (Nested nest.old) whole bytes → Took (Instruction instr) bytes rest → StaysShallow nest.old instr →
        Took (Nested nest.new) whole rest) }
{
    nest.body.push(instr)
}

/// Whether as many blocks are open as may be.
pub fn is_full(nest: &Nest) -> bool
    ensures { MatchBool result (most_blocks ≤ length nest.now.around) (length nest.now.around < most_blocks) }
{
    nest.around.len() >= MOST_BLOCKS
}

/// One more block.
pub fn begin_block(alloc: Global, nest: &mut Nest, opening: Opening) -> Result<(), AllocError>
    ensures { OnOk result ((whole bytes rest : List ℕ) → Took (Nested nest.old) whole bytes → Took (Heading opening) bytes rest → MayOpen nest.old opening →
        Took (Nested nest.new) whole rest) }
{
    let before = mem::replace(&mut nest.body, Items::new(alloc));
    nest.around.push(Frame { before, opening })
}

/// Leaves the innermost block: what opened it, and its instructions.
pub fn leave(nest: &mut Nest) -> Option<(Opening, Items<Instr>)>
    ensures { MatchOption result
        ((nest.old.around ≡ []) × (nest.new ≡ nest.old))
        (λ r. (whole rest : List ℕ) → Took (Nested nest.old) whole rest → (at : List ℕ) × Took (Nested nest.new) whole at × Took (Heading r.0 ⊳ Each Instruction r.1) at rest × WasOpen nest.new r.0 r.1) }
{
    let Frame { before, opening } = nest.around.pop()?;
    let body = mem::replace(&mut nest.body, before);
    Some((opening, body))
}

/// Closes the innermost block, or the expression.
pub fn end_block(nest: &mut Nest) -> Result<Step, AllocError>
    ensures { IfOk result (λ step. (whole bytes rest : List ℕ) → Took (Nested nest.old) whole bytes → bytes ≡ end_code ∷ rest → Took (Reached step nest.new) whole rest) }
{
    match leave(nest) {
        Some((opening, body)) => {
            push_instruction(nest, finished(opening, body))?;
            Ok(Step::Inside)
        }
        None => Ok(Step::Ended),
    }
}

/// The instruction that began so, with the instructions behind that.
fn finished(opening: Opening, body: Items<Instr>) -> Instr
    ensures shallow { (room : ℕ) → OpensShallow room opening → AreShallow room body → IsShallow result (suc room) }
    ensures read { (bytes mid rest : List ℕ) → Took (Heading opening) bytes mid → Took (Expression body) mid rest → Took (Instruction result) bytes rest }
{
    match opening {
        Opening::Head(form, ty) => headed(form, ty, body),
        Opening::Else(ty, first) => Instr::If(ty, first, Some(body)),
    }
}

/// The block of this form, without a second branch.
fn headed(form: BlockForm, ty: BlockType, body: Items<Instr>) -> Instr
    ensures shallow { (room : ℕ) → AreShallow room body → IsShallow result (suc room) }
    ensures read { (bytes mid rest : List ℕ) → Took (Heading (Head form ty)) bytes mid → Took (Expression body) mid rest → Took (Instruction result) bytes rest }
{
    match form {
        BlockForm::Block => Instr::Block(ty, body),
        BlockForm::Loop => Instr::Loop(ty, body),
        BlockForm::If => Instr::If(ty, body, None),
    }
}

/// The type of an `if` whose first branch is read.
pub fn first_branch(opening: &Opening) -> Option<BlockType>
    ensures { MatchOption result ((ty : BlockType) → ¬ (opening.now ≡ Head If ty)) (λ ty. opening.now ≡ Head If ty) }
{
    match opening {
        Opening::Head(BlockForm::If, ty) => Some(*ty),
        Opening::Head(BlockForm::Block | BlockForm::Loop, _) => None,
        Opening::Else(_, _) => None,
    }
}
