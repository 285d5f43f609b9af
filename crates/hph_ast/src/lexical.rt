/// What the bytes at a place are read as.
#[derive(Clone, Copy, PartialEq, Eq)]
pub enum Mode {
    /// Outside `<?php` and `?>`.
    Inline,
    Code,
    /// Code behind `->` or `::`, where a name is never a keyword.
    Member,
    /// Where an interpolation of a double-quoted string begins.
    Interpolation,
    /// Behind an interpolation, where a further piece of its string begins.
    Piece,
}

/// What begins at a place in code.
#[derive(Clone, Copy, PartialEq, Eq)]
pub enum Start {
    Whitespace,
    CloseTag,
    LineComment,
    BlockComment,
    Name,
    Variable,
    Number,
    SingleQuote,
    DoubleQuote,
    Cast,
    /// A mark, an operator, or nothing.
    Other,
}
