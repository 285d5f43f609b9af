ghost use Rattle.std.specs.Prelude.{◌≡◌, false};
ghost use Rattle.hph_type.specs.Kinds.{holds, only, without};
ghost use Rattle.hph_type.specs.Types.{none, top, same_type, same_type_equiv};
ghost use Rattle.std.specs.Cmp as Cmp;

use crate::kind::{Kind, are_included, bit, intersection};
use crate::object::ObjPart;
use std::cmp::{Eq, PartialEq};
use std::marker::Model;

/// A type of PHP values: the set of their kinds, and what it says of objects.
#[derive(Clone, Copy, Debug, Drop)]
pub struct Ty {
    /// The kinds, as bits 0 to 4 for null, bool, int, string and array. The other bits are 0.
    pub kinds: u8,
    /// The object part.
    pub obj: ObjPart,
}

impl Model for Ty {
    ghost use Rattle.std.specs.Prelude.{◌<◌};
    ghost use Rattle.hph_type.specs.Kinds.{kinds_of, bits_of, bits_of-kinds_of};
    ghost use Rattle.hph_type.specs.Types.{PhpType};

    ghost Value = { PhpType };

    ghost view = { λ t. record { kinds = kinds_of t.kinds; obj = t.obj } };

    ghost invariant = { λ t. t.kinds < 32 };

    ghost inverse = { λ t. record { kinds = bits_of t.kinds; obj = t.obj } };

    ghost inverse_ok = { λ t below i. record { kinds = bits_of-kinds_of t.kinds below i; obj = t.obj } };
}

impl PartialEq for Ty {
    ghost eq = { same_type };

    ghost laws = { Cmp.partial_equiv_from_equiv same_type_equiv };

    fn eq(&self, other: &Ty) -> bool {
        self.kinds == other.kinds && self.obj == other.obj
    }
}

impl Eq for Ty {
    ghost laws = { same_type_equiv };
}

impl Ty {
    /// The empty type, which no value has.
    pub fn none() -> Ty
        ensures { result ≡ none }
    {
        Ty {
            kinds: 0,
            obj: ObjPart::NoObj,
        }
    }

    /// The type of all values.
    pub fn top() -> Ty
        ensures { result ≡ top }
    {
        Ty {
            kinds: 31,
            obj: ObjPart::AnyObj,
        }
    }

    /// The type of the objects of a part.
    pub fn object(part: ObjPart) -> Ty
        ensures { result ≡ record none { obj = part } }
    {
        Ty {
            kinds: 0,
            obj: part,
        }
    }

    /// The type of the values of a kind.
    pub fn only(kind: Kind) -> Ty
        ensures { result ≡ record none { kinds = only kind } }
    {
        Ty {
            kinds: bit(kind),
            obj: ObjPart::NoObj,
        }
    }

    /// Whether values of a kind have the type.
    pub fn has(self, kind: Kind) -> bool
        ensures { result ≡ holds self.kinds kind }
    {
        are_included(bit(kind), self.kinds)
    }

    /// The type without a kind.
    pub fn without(self, kind: Kind) -> Ty
        ensures { result ≡ record self { kinds = without self.kinds kind } }
    {
        Ty {
            kinds: intersection(self.kinds, 31 - bit(kind)),
            obj: self.obj,
        }
    }

    /// The object part.
    pub fn object_part(self) -> ObjPart
        ensures { result ≡ self.obj }
    {
        self.obj
    }
}
