//! What one token tells: PHP manual, Operator Precedence and Assignment Operators.

ghost use Rattle.std.specs.Prelude.{◌≡◌};
ghost use Rattle.hph_ast.specs.declared.token.Kind.TheVariants as k;
ghost use Rattle.hph_ast.specs.Levels as levels;
ghost use Rattle.hph_cursor.specs.Steps as steps;
ghost use Rattle.hph_cursor.specs.Next as next;

use hph_ast::{Assignment, Binary, Grouping, IncludeForm, Keyword, Kind, Mark, Prefix, Update};

/// How tightly a binary operator binds, from 1 on.
pub fn level(operator: Binary) -> u8
    ensures { result ≡ levels.level operator }
{
    match operator {
        Binary::Pow => 22,
        Binary::Mul | Binary::Div | Binary::Rem => 18,
        Binary::Add | Binary::Sub => 17,
        Binary::ShiftLeft | Binary::ShiftRight => 16,
        Binary::Concat => 15,
        Binary::Less | Binary::LessEqual | Binary::Greater | Binary::GreaterEqual => 14,
        Binary::Equal
        | Binary::NotEqual
        | Binary::Identical
        | Binary::NotIdentical
        | Binary::Spaceship => 13,
        Binary::BitAnd => 12,
        Binary::BitXor => 11,
        Binary::BitOr => 10,
        Binary::BooleanAnd => 9,
        Binary::BooleanOr => 8,
        Binary::Coalesce => 7,
        Binary::LogicalAnd => 3,
        Binary::LogicalXor => 2,
        Binary::LogicalOr => 1,
    }
}

/// How operators of one level group.
pub fn grouping(operator: Binary) -> Grouping
    ensures { result ≡ levels.grouping operator }
{
    match operator {
        Binary::Pow | Binary::Coalesce => Grouping::Right,
        Binary::Less
        | Binary::LessEqual
        | Binary::Greater
        | Binary::GreaterEqual
        | Binary::Equal
        | Binary::NotEqual
        | Binary::Identical
        | Binary::NotIdentical
        | Binary::Spaceship => Grouping::Alone,
        _ => Grouping::Left,
    }
}

/// The operand of a prefix operator has operators that bind tighter than this.
pub fn prefix_level(operator: Prefix) -> u8
    ensures { result ≡ levels.prefix_level operator }
{
    match operator {
        Prefix::Not => 19,
        Prefix::Print => 4,
        Prefix::Include(_) => 0,
        _ => 21,
    }
}

/// How tightly a token binds to the expression before it: 0 for one with which no expression goes on.
pub fn binds(kind: &Kind) -> u8
    ensures { result ≡ levels.binds kind.now }
{
    match kind {
        Kind::Operator(operator) => level(*operator),
        Kind::Assign(_) => 23,
        Kind::Mark(mark) => binds_by_mark(*mark),
        Kind::Keyword(Keyword::InstanceOf) => 20,
        _ => 0,
    }
}

fn binds_by_mark(mark: Mark) -> u8
    ensures { result ≡ levels.binds (k.Mark mark) }
{
    match mark {
        Mark::OpenParen
        | Mark::OpenBracket
        | Mark::Arrow
        | Mark::DoubleColon
        | Mark::Increment
        | Mark::Decrement => 23,
        Mark::Question => 6,
        _ => 0,
    }
}

/// The prefix operator that a token is, but for `++` and `--`.
pub fn prefix_of(kind: &Kind) -> Option<Prefix>
    ensures { result ≡ levels.prefix_of kind.now }
{
    match kind {
        Kind::Operator(Binary::Add) => Some(Prefix::Plus),
        Kind::Operator(Binary::Sub) => Some(Prefix::Minus),
        Kind::Mark(Mark::Tilde) => Some(Prefix::BitNot),
        Kind::Mark(Mark::At) => Some(Prefix::Silence),
        Kind::Mark(Mark::Exclamation) => Some(Prefix::Not),
        Kind::Cast(cast) => Some(Prefix::Cast(*cast)),
        Kind::Keyword(keyword) => prefix_of_keyword(*keyword),
        _ => None,
    }
}

fn prefix_of_keyword(keyword: Keyword) -> Option<Prefix>
    ensures { result ≡ levels.prefix_of (k.Keyword keyword) }
{
    match keyword {
        Keyword::Print => Some(Prefix::Print),
        Keyword::Include => Some(Prefix::Include(IncludeForm::Include)),
        Keyword::IncludeOnce => Some(Prefix::Include(IncludeForm::IncludeOnce)),
        Keyword::Require => Some(Prefix::Include(IncludeForm::Require)),
        Keyword::RequireOnce => Some(Prefix::Include(IncludeForm::RequireOnce)),
        _ => None,
    }
}

/// Whether a token is this mark.
pub fn is_mark(mark: Mark, kind: &Kind) -> bool
    ensures { result ≡ steps.is_mark mark kind.now }
{
    match kind {
        Kind::Mark(found) => *found == mark,
        _ => false,
    }
}

pub fn assignment_of(kind: &Kind) -> Option<Assignment>
    ensures { result ≡ next.assignment_of kind.now }
{
    match kind {
        Kind::Assign(operator) => Some(*operator),
        _ => None,
    }
}

pub fn binary_of(kind: &Kind) -> Option<Binary>
    ensures { result ≡ next.binary_of kind.now }
{
    match kind {
        Kind::Operator(operator) => Some(*operator),
        _ => None,
    }
}

/// The binary operator of a level that a token is.
pub fn operator_of(of: u8, kind: &Kind) -> Option<Binary>
    ensures { result ≡ next.operator_of of kind.now }
{
    match kind {
        Kind::Operator(operator) if level(*operator) == of => Some(*operator),
        _ => None,
    }
}

pub fn pre_update_of(kind: &Kind) -> Option<Update>
    ensures { result ≡ next.pre_update_of kind.now }
{
    match kind {
        Kind::Mark(Mark::Increment) => Some(Update::PreIncrement),
        Kind::Mark(Mark::Decrement) => Some(Update::PreDecrement),
        _ => None,
    }
}

pub fn post_update_of(kind: &Kind) -> Option<Update>
    ensures { result ≡ next.post_update_of kind.now }
{
    match kind {
        Kind::Mark(Mark::Increment) => Some(Update::PostIncrement),
        Kind::Mark(Mark::Decrement) => Some(Update::PostDecrement),
        _ => None,
    }
}

/// Whether an assignment is `=`.
pub fn is_set(operator: Assignment) -> bool
    ensures { result ≡ next.is_set operator }
{
    matches!(operator, Assignment::Set)
}

/// Whether a token is `=`.
pub fn is_set_kind(kind: &Kind) -> bool
    ensures { result ≡ next.is_set_kind kind.now }
{
    match kind {
        Kind::Assign(operator) => is_set(*operator),
        _ => false,
    }
}

/// Whether a token is the `&` of a reference.
pub fn is_ampersand(kind: &Kind) -> bool
    ensures { result ≡ next.is_ampersand kind.now }
{
    matches!(kind, Kind::Operator(Binary::BitAnd))
}

/// Whether a token is `instanceof`.
pub fn is_instance_of(kind: &Kind) -> bool
    ensures { result ≡ next.is_instance_of kind.now }
{
    matches!(kind, Kind::Keyword(Keyword::InstanceOf))
}

/// Whether a token is a variable.
pub fn is_variable(kind: &Kind) -> bool
    ensures { result ≡ next.is_variable kind.now }
{
    matches!(kind, Kind::Variable(_))
}
