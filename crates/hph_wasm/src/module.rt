use crate::instr::Instr;
use crate::locals::Locals;
use crate::name::Name;
use crate::types::{FuncType, GlobalType, Limits};
use sqlite_items::Items;

/// A module, with a list for each kind of its sections (Core Specification 1.0, 2.5).
/// Functions and their code are one list. Functions, tables, memories and globals are numbered imports first.
#[derive(Debug, Drop)]
pub struct Module {
    pub types: Items<FuncType>,
    pub imports: Items<Import>,
    pub funcs: Items<Func>,
    /// Each of functions (2.5.4).
    pub tables: Items<Limits>,
    pub memories: Items<Limits>,
    pub globals: Items<Global>,
    pub exports: Items<Export>,
    pub elements: Items<Element>,
    pub segments: Items<Segment>,
}

/// What a module asks of its host, by the names of a module and of a thing in it (2.5.11).
#[derive(Debug, Drop)]
pub struct Import {
    pub module: Name,
    pub name: Name,
    pub desc: ImportDesc,
}

/// What is imported: a function, with the number of its type, a table, a memory or a global.
#[derive(Clone, Copy, Debug, PartialEq, Eq)]
pub enum ImportDesc {
    Func(u32),
    Table(Limits),
    Memory(Limits),
    Global(GlobalType),
}

/// A function: the number of its type, its locals behind its parameters, and its body (2.5.3).
#[derive(Debug, Drop)]
pub struct Func {
    pub ty: u32,
    pub locals: Locals,
    pub body: Items<Instr>,
}

/// A global, and the constant expression of the value that it begins with (2.5.6).
#[derive(Debug, Drop)]
pub struct Global {
    pub ty: GlobalType,
    pub init: Items<Instr>,
}

/// What a module shows under a name (2.5.10).
#[derive(Debug, Drop)]
pub struct Export {
    pub name: Name,
    pub desc: ExportDesc,
}

/// The kind of an export, with its number.
#[derive(Clone, Copy, Debug, PartialEq, Eq)]
pub enum ExportDesc {
    Func(u32),
    Table(u32),
    Memory(u32),
    Global(u32),
}

/// Functions that a table begins with, by their numbers, at a place that a constant expression gives (2.5.7).
#[derive(Debug, Drop)]
pub struct Element {
    pub table: u32,
    pub offset: Items<Instr>,
    pub funcs: Items<u32>,
}

/// Bytes that a memory begins with, at a place that a constant expression gives (2.5.8).
#[derive(Debug, Drop)]
pub struct Segment {
    pub memory: u32,
    pub offset: Items<Instr>,
    pub bytes: Items<u8>,
}
