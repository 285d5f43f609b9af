//! How operators are spelled.

use hph_ast::{Assignment, Binary, Cast, IncludeForm, Prefix};

pub fn binary(operator: Binary) -> &'static str {
    match operator {
        Binary::Pow => "**",
        Binary::Mul => "*",
        Binary::Div => "/",
        Binary::Rem => "%",
        Binary::Add => "+",
        Binary::Sub => "-",
        Binary::ShiftLeft => "<<",
        Binary::ShiftRight => ">>",
        Binary::Concat => ".",
        Binary::Less => "<",
        Binary::LessEqual => "<=",
        Binary::Greater => ">",
        Binary::GreaterEqual => ">=",
        Binary::Equal => "==",
        Binary::NotEqual => "!=",
        Binary::Identical => "===",
        Binary::NotIdentical => "!==",
        Binary::Spaceship => "<=>",
        Binary::BitAnd => "&",
        Binary::BitXor => "^",
        Binary::BitOr => "|",
        Binary::BooleanAnd => "&&",
        Binary::BooleanOr => "||",
        Binary::Coalesce => "??",
        Binary::LogicalAnd => "and",
        Binary::LogicalXor => "xor",
        Binary::LogicalOr => "or",
    }
}

/// With the space behind it, where it has one.
pub fn prefix(operator: Prefix) -> &'static str {
    match operator {
        Prefix::Plus => "+",
        Prefix::Minus => "-",
        Prefix::BitNot => "~",
        Prefix::Silence => "@",
        Prefix::Not => "!",
        Prefix::Cast(Cast::Int) => "(int) ",
        Prefix::Cast(Cast::Bool) => "(bool) ",
        Prefix::Cast(Cast::String) => "(string) ",
        Prefix::Cast(Cast::Array) => "(array) ",
        Prefix::Print => "print ",
        Prefix::Include(IncludeForm::Include) => "include ",
        Prefix::Include(IncludeForm::IncludeOnce) => "include_once ",
        Prefix::Include(IncludeForm::Require) => "require ",
        Prefix::Include(IncludeForm::RequireOnce) => "require_once ",
    }
}

pub fn assignment(operator: Assignment) -> &'static str {
    match operator {
        Assignment::Set => "=",
        Assignment::Add => "+=",
        Assignment::Sub => "-=",
        Assignment::Mul => "*=",
        Assignment::Div => "/=",
        Assignment::Rem => "%=",
        Assignment::Pow => "**=",
        Assignment::Concat => ".=",
        Assignment::ShiftLeft => "<<=",
        Assignment::ShiftRight => ">>=",
        Assignment::BitAnd => "&=",
        Assignment::BitOr => "|=",
        Assignment::BitXor => "^=",
        Assignment::Coalesce => "??=",
    }
}
