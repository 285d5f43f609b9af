/// A binary operator that is no assignment, from the tightest level on (PHP manual, Operator Precedence).
#[derive(Clone, Copy, PartialEq, Eq)]
pub enum Binary {
    Pow,
    Mul,
    Div,
    Rem,
    Add,
    Sub,
    ShiftLeft,
    ShiftRight,
    Concat,
    Less,
    LessEqual,
    Greater,
    GreaterEqual,
    Equal,
    NotEqual,
    Identical,
    NotIdentical,
    Spaceship,
    BitAnd,
    BitXor,
    BitOr,
    BooleanAnd,
    BooleanOr,
    Coalesce,
    /// `and`
    LogicalAnd,
    /// `xor`
    LogicalXor,
    /// `or`
    LogicalOr,
}

/// How operators of one level group.
#[derive(Clone, Copy, PartialEq, Eq)]
pub enum Grouping {
    Left,
    Right,
    Alone,
}

/// An operator before its operand, but for `++` and `--`.
#[derive(Clone, Copy, PartialEq, Eq)]
pub enum Prefix {
    Plus,
    Minus,
    /// `~`
    BitNot,
    /// `@`
    Silence,
    Cast(Cast),
    /// `!`
    Not,
    Print,
    Include(IncludeForm),
}

/// The type that a cast gives (PHP manual, Type Juggling).
#[derive(Clone, Copy, PartialEq, Eq)]
pub enum Cast {
    Int,
    Bool,
    String,
    Array,
}

/// Which of the four forms an include has.
#[derive(Clone, Copy, PartialEq, Eq)]
pub enum IncludeForm {
    Include,
    IncludeOnce,
    Require,
    RequireOnce,
}

/// An assignment: `=`, or one that first applies an operator to the old value (PHP manual, Assignment Operators).
#[derive(Clone, Copy, PartialEq, Eq)]
pub enum Assignment {
    Set,
    Add,
    Sub,
    Mul,
    Div,
    Rem,
    Pow,
    Concat,
    ShiftLeft,
    ShiftRight,
    BitAnd,
    BitOr,
    BitXor,
    Coalesce,
}
