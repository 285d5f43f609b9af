use crate::keyword::Keyword;
use crate::operator::{Assignment, Binary, Cast};
use sqlite_items::Items;

/// A token, from its byte `start` up to its byte `end`, counted from 0 in its file.
#[derive(Drop)]
pub struct Token {
    pub kind: Kind,
    pub start: u32,
    pub end: u32,
}

/// What a token is, with what it spells.
#[derive(Drop)]
pub enum Kind {
    /// What stands outside `<?php` and `?>`.
    InlineText(Items<u8>),
    /// A whole number below 2^63.
    Int(u64),
    /// A string without interpolation.
    Text(Items<u8>),
    /// A double-quoted string up to its first interpolation.
    TextHead(Items<u8>),
    /// What stands between two interpolations of a string.
    TextMiddle(Items<u8>),
    /// What stands after a string's last interpolation.
    TextTail(Items<u8>),
    /// The name after the `$`.
    Variable(Items<u8>),
    Name(Items<u8>),
    Keyword(Keyword),
    Operator(Binary),
    Assign(Assignment),
    Cast(Cast),
    Mark(Mark),
}

/// A mark that is neither a binary operator nor an assignment.
#[derive(Clone, Copy, PartialEq, Eq)]
pub enum Mark {
    OpenParen,
    CloseParen,
    OpenBracket,
    CloseBracket,
    OpenBrace,
    CloseBrace,
    /// The `{` of an interpolation `{$..}`.
    OpenInterpolation,
    Comma,
    /// `;`, and `?>` with the newline after it.
    Semicolon,
    Question,
    Colon,
    /// `->`
    Arrow,
    /// `::`
    DoubleColon,
    /// `=>`
    DoubleArrow,
    /// `++`
    Increment,
    /// `--`
    Decrement,
    Exclamation,
    Tilde,
    At,
}

/// Where a node stands, from its first byte up to the end of its last, and the number of its site.
#[derive(Clone, Copy, PartialEq, Eq)]
pub struct At {
    pub start: u32,
    pub end: u32,
    pub site: u32,
}

/// A name or a variable that is no node of its own, with its place.
#[derive(Drop)]
pub struct Identifier {
    pub start: u32,
    pub end: u32,
    pub spelled: Items<u8>,
}
