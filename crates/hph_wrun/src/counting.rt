//! How many opcodes instructions have in the binary format (Core Specification 1.0, 5.4).
ghost use Rattle.std.specs.Prelude.{◌≡◌, ◌+◌, IfOk};
ghost use Rattle.hph_wasm.specs.Blocks.{else_list_size};
ghost use Rattle.hph_wasm.specs.Rows.{size, list_size};
ghost use Rattle.hph_wrun.specs.Counting.{Counted};

use hph_pile::Pile;
use hph_wasm::Instr;
use sqlite_items::Items;
use std::alloc::{AllocError, Global};

/// A sum. One of more than 64 bits is told as want of memory, since no memory holds so many instructions.
pub fn sum(a: u64, b: u64) -> Result<u64, AllocError>
    ensures { IfOk result (λ c. c ≡ a + b) }
{
    match a.checked_add(b) {
        Some(c) => Ok(c),
        None => Err(AllocError),
    }
}

/// The two opcodes of a block, whose instructions are left to be counted.
fn count_block<'m>(
    waiting: &mut Pile<&'m [Instr]>,
    body: &'m Items<Instr>,
) -> Result<u64, AllocError>
    ensures { IfOk result (λ count. Counted (2 + list_size body.now) count waiting.old waiting.new) }
{
    waiting.push(body.as_slice())?;
    Ok(2)
}

/// An `else`, if there is one, the instructions behind which are left to be counted.
fn count_else<'m>(
    waiting: &mut Pile<&'m [Instr]>,
    other: &'m Option<Items<Instr>>,
) -> Result<u64, AllocError>
    ensures { IfOk result (λ count. Counted (else_list_size other.now) count waiting.old waiting.new) }
{
    match other {
        None => Ok(0),
        Some(body) => {
            waiting.push(body.as_slice())?;
            Ok(1)
        }
    }
}

/// The opcodes of an `if`, its `else` and its `end`.
fn count_if<'m>(
    waiting: &mut Pile<&'m [Instr]>,
    body: &'m Items<Instr>,
    other: &'m Option<Items<Instr>>,
) -> Result<u64, AllocError>
    ensures { IfOk result (λ count. Counted (2 + (list_size body.now + else_list_size other.now)) count waiting.old waiting.new) }
{
    let first = count_block(waiting, body)?;
    let second = count_else(waiting, other)?;
    sum(first, second)
}

/// The opcodes of an instruction but for those inside it, which are left to be counted.
fn count_one<'m>(waiting: &mut Pile<&'m [Instr]>, i: &'m Instr) -> Result<u64, AllocError>
    ensures { IfOk result (λ count. Counted (size i.now) count waiting.old waiting.new) }
{
    match i {
        Instr::Block(_, body) => count_block(waiting, body),
        Instr::Loop(_, body) => count_block(waiting, body),
        Instr::If(_, body, other) => count_if(waiting, body, other),
        _ => Ok(1),
    }
}

/// The opcodes of instructions but for those inside them, which are left to be counted.
fn count_list<'m>(waiting: &mut Pile<&'m [Instr]>, list: &'m [Instr]) -> Result<u64, AllocError>
    ensures { IfOk result (λ count. Counted (list_size list.now) count waiting.old waiting.new) }
{
    let mut count = 0;
    let mut left = list;
    while let [i, behind @ ..] = left {
        let own = count_one(waiting, i)?;
        count = sum(count, own)?;
        left = behind;
    }
    Ok(count)
}

/// How many opcodes the instructions have, with those inside blocks, each `else` and each `end` of a block. Nothing recurses by
/// blocks.
pub fn opcode_count(alloc: Global, code: &[Instr]) -> Result<u64, AllocError>
    ensures { IfOk result (λ count. count ≡ list_size code.now) }
{
    let mut waiting = Pile::new(alloc);
    waiting.push(code)?;
    let mut count = 0;
    while let Some(list) = waiting.pop() {
        let own = count_list(&mut waiting, list)?;
        count = sum(count, own)?;
    }
    Ok(count)
}
