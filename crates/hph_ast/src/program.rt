use crate::stmt::Statement;
use crate::token::{At, Token};
use sqlite_items::Items;

/// The tree of a file.
#[derive(Drop)]
pub struct FileTree {
    pub at: At,
    pub statements: Items<Statement>,
}

/// A file of a program: its normalised path, its bytes, and what they spell.
#[derive(Drop)]
pub struct File {
    pub path: String,
    pub bytes: Items<u8>,
    pub tokens: Items<Token>,
    pub tree: FileTree,
}

/// The files of a program in order of their numbers; the main file has the number 0.
#[derive(Drop)]
pub struct Program {
    pub files: Items<File>,
}

/// A place of a program: a file's number, and an offset that counts bytes from 0.
#[derive(Clone, Copy, PartialEq, Eq)]
pub struct Place {
    pub file: u32,
    pub offset: u32,
}
