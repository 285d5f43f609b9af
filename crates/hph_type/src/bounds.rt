ghost use Rattle.std.specs.Prelude.{◌≡◌, ◌↔◌, IsTrue};
ghost use Rattle.hph_type.specs.Order.{IsPartOf, IsOf, PartLeq, Leq, join_part, meet_part, join, meet};

use crate::kind::{are_included, intersection, union};
use crate::object::ObjPart;
use crate::tree::ClassTree;
use crate::ty::Ty;

/// Whether all values of one type have the other.
#[tactic(auto, unfolding(crate::specs::Order::Leq, crate::specs::Order::IsOf))]
pub fn leq(a: Ty, b: Ty, tree: &ClassTree) -> bool
    requires left { IsOf tree.now a }
    requires right { IsOf tree.now b }
    ensures { IsTrue result ↔ (Leq tree.now a b) }
{
    are_included(a.kinds, b.kinds) && part_leq(a.obj, b.obj, tree)
}

/// The least type above both: the union of the kinds, and the nearest common ancestor, or any object where there is
/// none.
#[tactic(auto, unfolding(crate::specs::Order::join, crate::specs::Order::IsOf))]
pub fn join(a: Ty, b: Ty, tree: &ClassTree) -> Ty
    requires left { IsOf tree.now a }
    requires right { IsOf tree.now b }
    ensures { result ≡ join tree.now a b }
{
    Ty {
        kinds: union(a.kinds, b.kinds),
        obj: joined(a.obj, b.obj, tree),
    }
}

/// The greatest type below both: the intersection of the kinds, and the lower of two comparable object parts, or no
/// object.
#[tactic(auto, unfolding(crate::specs::Order::meet, crate::specs::Order::IsOf))]
pub fn meet(a: Ty, b: Ty, tree: &ClassTree) -> Ty
    requires left { IsOf tree.now a }
    requires right { IsOf tree.now b }
    ensures { result ≡ meet tree.now a b }
{
    Ty {
        kinds: intersection(a.kinds, b.kinds),
        obj: met(a.obj, b.obj, tree),
    }
}

// Whether the objects of one part are among those of the other.
fn part_leq(a: ObjPart, b: ObjPart, tree: &ClassTree) -> bool
    requires left { IsPartOf tree.now a }
    requires right { IsPartOf tree.now b }
    ensures { IsTrue result ↔ (PartLeq tree.now a b) }
{
    match (a, b) {
        (ObjPart::NoObj, _) => true,
        (_, ObjPart::AnyObj) => true,
        (ObjPart::Of(class), ObjPart::Of(ancestor)) => tree.is_within(class, ancestor),
        _ => false,
    }
}

// The least object part above both.
fn joined(a: ObjPart, b: ObjPart, tree: &ClassTree) -> ObjPart
    requires left { IsPartOf tree.now a }
    requires right { IsPartOf tree.now b }
    ensures { result ≡ join_part tree.now a b }
{
    match (a, b) {
        (ObjPart::NoObj, _) => b,
        (_, ObjPart::NoObj) => a,
        (ObjPart::Of(left), ObjPart::Of(right)) => match tree.nearest(left, right) {
            Some(class) => ObjPart::Of(class),
            None => ObjPart::AnyObj,
        },
        _ => ObjPart::AnyObj,
    }
}

// The lower of two comparable object parts, else no object.
fn met(a: ObjPart, b: ObjPart, tree: &ClassTree) -> ObjPart
    requires left { IsPartOf tree.now a }
    requires right { IsPartOf tree.now b }
    ensures { result ≡ meet_part tree.now a b }
{
    match (a, b) {
        (ObjPart::AnyObj, _) => b,
        (_, ObjPart::AnyObj) => a,
        (ObjPart::Of(left), ObjPart::Of(right)) => lower(left, right, tree),
        _ => ObjPart::NoObj,
    }
}

// The objects of the lower of two classes, if one is within the other.
fn lower(left: u32, right: u32, tree: &ClassTree) -> ObjPart
    requires left { IsPartOf tree.now (ObjPart.Of left) }
    requires right { IsPartOf tree.now (ObjPart.Of right) }
    ensures { result ≡ meet_part tree.now (ObjPart.Of left) (ObjPart.Of right) }
{
    if tree.is_within(left, right) {
        ObjPart::Of(left)
    } else if tree.is_within(right, left) {
        ObjPart::Of(right)
    } else {
        ObjPart::NoObj
    }
}
