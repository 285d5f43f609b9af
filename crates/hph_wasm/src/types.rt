use sqlite_items::Items;

/// The type of a value (Core Specification 1.0, 2.3.1), without floats.
#[derive(Clone, Copy, Debug, PartialEq, Eq)]
pub enum ValType {
    I32,
    I64,
}

/// What a block gives: nothing, or one value (2.3.2).
#[derive(Clone, Copy, Debug, PartialEq, Eq)]
pub struct BlockType {
    pub result: Option<ValType>,
}

/// The types that a function takes and gives, the first one first (2.3.3).
#[derive(Debug, Drop)]
pub struct FuncType {
    pub params: Items<ValType>,
    pub results: Items<ValType>,
}

/// The least and the greatest size of a memory, in pages of 65536 bytes, or of a table, in entries (2.3.4 to 2.3.6).
#[derive(Clone, Copy, Debug, PartialEq, Eq)]
pub struct Limits {
    pub min: u32,
    pub max: Option<u32>,
}

/// The type of a global: of its value, and whether it can be set (2.3.7).
#[derive(Clone, Copy, Debug, PartialEq, Eq)]
pub struct GlobalType {
    pub value: ValType,
    pub mutable: bool,
}
