//! The refused construct that stands first, of those that were met so far.
ghost use Rattle.std.specs.Prelude.{◌≡◌, [], ◌∷◌};
ghost use Rattle.hph_ast.specs.RefusedExpressions.{on_true};
ghost use Rattle.hph_ast.specs.RefusedStatements as order;
ghost use Rattle.hph_accept.specs.Order.{earliest, earlier};

use hph_ast::Construct;

/// A refused construct and its offset, or none yet.
pub type Earliest = Option<(Construct, u32)>;

/// Which of two constructs at one offset comes first: the one with the lower number (this project's own list).
fn rank(construct: Construct) -> u8
    ensures { result ≡ order.rank construct }
{
    match construct {
        Construct::TypeDeclared => 0,
        Construct::NamedArgument => 1,
        Construct::Dynamic => 2,
        Construct::Destructure => 3,
        Construct::RefElement => 4,
        Construct::ClassName => 5,
        Construct::MagicMethod => 6,
        Construct::MagicConstant => 7,
        Construct::IncludePath => 8,
        Construct::IncludeExpr => 9,
        Construct::IncludeInFunction => 10,
        Construct::StaticPlace => 11,
        Construct::LibraryName => 12,
        Construct::ThisOutside => 13,
        Construct::ThisWrite => 14,
        Construct::ClassContext => 15,
        Construct::BadBreak => 16,
        Construct::DuplicateName => 17,
        Construct::UnsetProperty => 18,
        _ => 19,
    }
}

/// Whether a construct stands before another, or is the same.
fn is_before(left: (Construct, u32), right: (Construct, u32)) -> bool
    ensures { result ≡ order.is_before left right }
{
    left.1 < right.1 || (left.1 == right.1 && rank(left.0) <= rank(right.0))
}

/// The earlier of what was met and of a construct at an offset.
pub fn meet(met: Earliest, construct: Construct, offset: u32) -> Earliest
    ensures { result ≡ earlier met (construct, offset) }
{
    let next = (construct, offset);
    match met {
        Some(best) if is_before(best, next) => Some(best),
        _ => Some(next),
    }
}

/// The earlier of what was met and of a construct at an offset, if it stands there.
pub fn meet_if(met: Earliest, is_there: bool, construct: Construct, offset: u32) -> Earliest
    ensures { result ≡ earliest met (on_true is_there construct offset) }
{
    if is_there {
        meet(met, construct, offset)
    } else {
        met
    }
}
