use crate::types::{BlockType, ValType};
use sqlite_items::Items;

/// How the bits of an operand, or of a part that is loaded, are read as a number (Core Specification 1.0, 2.4.1).
#[derive(Clone, Copy, Debug, PartialEq, Eq)]
pub enum Sign {
    Signed,
    Unsigned,
}

/// Operations on one number that give a number of its type (2.4.1).
#[derive(Clone, Copy, Debug, PartialEq, Eq)]
pub enum Unary {
    Clz,
    Ctz,
    Popcnt,
}

/// Operations on two numbers that give a number of their type (2.4.1).
#[derive(Clone, Copy, Debug, PartialEq, Eq)]
pub enum Binary {
    Add,
    Sub,
    Mul,
    Div(Sign),
    Rem(Sign),
    And,
    Or,
    Xor,
    Shl,
    Shr(Sign),
    Rotl,
    Rotr,
}

/// Comparisons of two numbers, which give an i32 of 0 or 1 (2.4.1).
#[derive(Clone, Copy, Debug, PartialEq, Eq)]
pub enum Comparison {
    Eq,
    Ne,
    Lt(Sign),
    Gt(Sign),
    Le(Sign),
    Ge(Sign),
}

/// Loads of fewer bits than the type of the value has, which the sign extends (2.4.4).
#[derive(Clone, Copy, Debug, PartialEq, Eq)]
pub enum NarrowLoad {
    I32From8(Sign),
    I32From16(Sign),
    I64From8(Sign),
    I64From16(Sign),
    I64From32(Sign),
}

/// Stores of the lowest bits of a value (2.4.4).
#[derive(Clone, Copy, Debug, PartialEq, Eq)]
pub enum NarrowStore {
    I32To8,
    I32To16,
    I64To8,
    I64To16,
    I64To32,
}

/// Where an access to the memory goes: a constant added to its address, and the exponent of the power of 2
/// that the address is promised to be a multiple of (2.4.4).
#[derive(Clone, Copy, Debug, PartialEq, Eq)]
pub struct MemArg {
    pub align: u32,
    pub offset: u32,
}

/// An instruction (2.4), in the order of the opcodes.
#[derive(Debug, Drop)]
pub enum Instr {
    Unreachable,
    Nop,
    Block(BlockType, Items<Instr>),
    Loop(BlockType, Items<Instr>),
    /// The second list stands where there is an `else`.
    If(BlockType, Items<Instr>, Option<Items<Instr>>),
    Br(u32),
    BrIf(u32),
    /// The labels by number, and the one for every greater number.
    BrTable(Items<u32>, u32),
    Return,
    Call(u32),
    /// With the number of the type that the function must have.
    CallIndirect(u32),
    Drop,
    Select,
    LocalGet(u32),
    LocalSet(u32),
    LocalTee(u32),
    GlobalGet(u32),
    GlobalSet(u32),
    Load(ValType, MemArg),
    LoadNarrow(NarrowLoad, MemArg),
    Store(ValType, MemArg),
    StoreNarrow(NarrowStore, MemArg),
    I32Const(i32),
    I64Const(i64),
    Eqz(ValType),
    Compare(ValType, Comparison),
    Unary(ValType, Unary),
    Binary(ValType, Binary),
    /// `i32.wrap_i64`.
    Wrap,
    /// `i64.extend_i32_s` and `i64.extend_i32_u`.
    Extend(Sign),
}
