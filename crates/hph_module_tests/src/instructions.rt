//! Instructions in the text format, as bytes (Core Specification 1.0, 5.4, 6.5). They are not folded.
use crate::words::Words;
use hph_leb::{put_i64, put_u32};
use std::test::Fail;

/// What stands behind the opcode of an instruction.
#[derive(Clone, Copy)]
enum Operands {
    Nothing,
    /// A block's type.
    BlockType,
    Number,
    /// A number that is spelled as one with a sign.
    Signed,
    /// A type's number, and the number of the table.
    Callee,
    /// An alignment in bytes, and no offset.
    Access,
    Labels,
}

/// Instructions, each with its opcode.
const INSTRUCTIONS: [(&str, u8, Operands); 40] = [
    ("unreachable", 0x00, Operands::Nothing),
    ("nop", 0x01, Operands::Nothing),
    ("block", 0x02, Operands::BlockType),
    ("loop", 0x03, Operands::BlockType),
    ("if", 0x04, Operands::BlockType),
    ("else", 0x05, Operands::Nothing),
    ("end", 0x0B, Operands::Nothing),
    ("br", 0x0C, Operands::Number),
    ("br_if", 0x0D, Operands::Number),
    ("br_table", 0x0E, Operands::Labels),
    ("return", 0x0F, Operands::Nothing),
    ("call", 0x10, Operands::Number),
    ("call_indirect", 0x11, Operands::Callee),
    ("drop", 0x1A, Operands::Nothing),
    ("select", 0x1B, Operands::Nothing),
    ("local.get", 0x20, Operands::Number),
    ("local.set", 0x21, Operands::Number),
    ("local.tee", 0x22, Operands::Number),
    ("global.get", 0x23, Operands::Number),
    ("global.set", 0x24, Operands::Number),
    ("i32.load", 0x28, Operands::Access),
    ("i64.load", 0x29, Operands::Access),
    ("i32.load8_u", 0x2D, Operands::Access),
    ("i64.load32_s", 0x34, Operands::Access),
    ("i32.store", 0x36, Operands::Access),
    ("i64.store", 0x37, Operands::Access),
    ("i64.store16", 0x3D, Operands::Access),
    ("i32.const", 0x41, Operands::Signed),
    ("i64.const", 0x42, Operands::Signed),
    ("i32.eqz", 0x45, Operands::Nothing),
    ("i32.lt_s", 0x48, Operands::Nothing),
    ("i64.eqz", 0x50, Operands::Nothing),
    ("i64.eq", 0x51, Operands::Nothing),
    ("i32.clz", 0x67, Operands::Nothing),
    ("i32.add", 0x6A, Operands::Nothing),
    ("i32.div_s", 0x6D, Operands::Nothing),
    ("i64.popcnt", 0x7B, Operands::Nothing),
    ("i64.shl", 0x86, Operands::Nothing),
    ("i32.wrap_i64", 0xA7, Operands::Nothing),
    ("i64.extend_i32_u", 0xAD, Operands::Nothing),
];

/// The opcode and the operands of an instruction.
fn instruction(word: &str) -> Option<(u8, Operands)> {
    for (name, opcode, operands) in &INSTRUCTIONS {
        if *name == word {
            return Some((*opcode, *operands));
        }
    }
    None
}

/// Adds an instruction, if one is next.
fn put_instruction(words: &mut Words, out: &mut Vec<u8>) -> Result<bool, Fail> {
    let Some(word) = words.peek() else {
        return Ok(false);
    };
    let Some((opcode, operands)) = instruction(word) else {
        return Ok(false);
    };
    words.skip();
    out.push(opcode)?;
    put_operands(words, out, operands)?;
    Ok(true)
}

fn put_operands(words: &mut Words, out: &mut Vec<u8>, operands: Operands) -> Result<(), Fail> {
    match operands {
        Operands::Nothing => Ok(()),
        Operands::BlockType => put_block_type(words, out),
        Operands::Number => words.put_number(out),
        Operands::Signed => put_signed(words, out),
        Operands::Callee => put_callee(words, out),
        Operands::Access => put_access(words, out),
        Operands::Labels => words.put_numbers(out, 1),
    }
}

fn put_block_type(words: &mut Words, out: &mut Vec<u8>) -> Result<(), Fail> {
    if words.takes("result") {
        words.put_type(out)
    } else {
        out.push(0x40)?;
        Ok(())
    }
}

fn put_signed(words: &mut Words, out: &mut Vec<u8>) -> Result<(), Fail> {
    let number = words.number().ok_or("no number")?;
    put_i64(out, i64::from(number))?;
    Ok(())
}

fn put_callee(words: &mut Words, out: &mut Vec<u8>) -> Result<(), Fail> {
    words.takes("type");
    words.put_number(out)?;
    out.push(0)?;
    Ok(())
}

/// The number behind `align=`.
fn alignment(word: &str) -> Option<u32> {
    word.strip_prefix("align=")?.parse::<u32>().ok()
}

fn put_access(words: &mut Words, out: &mut Vec<u8>) -> Result<(), Fail> {
    let word = words.take().ok_or("no alignment")?;
    let bytes = alignment(word).ok_or("no alignment")?;
    put_u32(out, bytes.trailing_zeros())?;
    out.push(0)?;
    Ok(())
}

/// Adds the instructions that are next, and an end.
pub fn put_expression(words: &mut Words, out: &mut Vec<u8>) -> Result<(), Fail> {
    for _ in 0..words.words.len() {
        if !put_instruction(words, out)? {
            break;
        }
    }
    out.push(0x0B)?;
    Ok(())
}
