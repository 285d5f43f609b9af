ghost use Rattle.std.specs.Prelude.{◌≡◌, ◌<◌, ◌-◌, ◌↔◌, IsTrue, not};
ghost use Rattle.hph_type.specs.Kinds.{kinds_of, kinds_where, same_kind, only, either, both, AreIncluded};

/// A kind of PHP values but objects (PHP manual, 'Types').
#[derive(Clone, Copy, Debug, Drop, PartialEq, Eq)]
pub enum Kind {
    /// null
    Null,
    /// bool
    Bool,
    /// int
    Int,
    /// string
    Str,
    /// array
    Arr,
}

// The bit of a kind.
pub(crate) fn bit(kind: Kind) -> u8
    ensures within { result < 32 }
    ensures one { kinds_of result ≡ only kind }
    ensures others { kinds_of (31 - result) ≡ kinds_where (λ k. not (same_kind kind k)) }
{
    match kind {
        Kind::Null => 1,
        Kind::Bool => 2,
        Kind::Int => 4,
        Kind::Str => 8,
        Kind::Arr => 16,
    }
}

// The kinds of either.
pub(crate) fn union(a: u8, b: u8) -> u8
    requires left { a < 32 }
    requires right { b < 32 }
    ensures within { result < 32 }
    ensures kinds { kinds_of result ≡ either (kinds_of a) (kinds_of b) }
{
    a | b
}

// The kinds of both.
pub(crate) fn intersection(a: u8, b: u8) -> u8
    requires left { a < 32 }
    requires right { b < 32 }
    ensures within { result < 32 }
    ensures kinds { kinds_of result ≡ both (kinds_of a) (kinds_of b) }
{
    a & b
}

// Whether the kinds of one are among those of the other.
pub(crate) fn are_included(a: u8, b: u8) -> bool
    requires left { a < 32 }
    requires right { b < 32 }
    ensures { IsTrue result ↔ (AreIncluded (kinds_of a) (kinds_of b)) }
{
    intersection(a, b) == a
}
