ghost use Rattle.std.specs.Prelude.{◌≡◌, IfOk, Some, None, [], ◌∷◌};

use hph_type::{ClassTree, Kind, ObjPart, Ty, code, join, leq, meet, of_code};
use std::alloc::{AllocError, Global};
use std::test::Fail;

// The classes A, B extends A, C extends A, D, and E extends B, numbered from 0.
fn five_classes(alloc: Global) -> Result<ClassTree, AllocError>
    ensures { IfOk result (λ tree. tree ≡ None ∷ Some 0 ∷ Some 0 ∷ None ∷ Some 1 ∷ []) }
{
    let mut parents = Vec::new(alloc);
    parents.push(None)?;
    parents.push(Some(0))?;
    parents.push(Some(0))?;
    parents.push(None)?;
    parents.push(Some(1))?;
    ClassTree::new(alloc, parents)
}

#[test]
fn tells_the_classes_of_a_tree(rt: HostRuntime) -> Result<(), Fail> {
    let tree = five_classes(rt.alloc())?;
    assert_eq!(rt; tree.len(), 5);
    assert_eq!(rt; tree.height(), 9);
    assert_eq!(rt; tree.parent(4), Some(1));
    assert!(rt; tree.is_within(4, 0));
    assert!(rt; !tree.is_within(0, 4));
    assert_eq!(rt; tree.nearest(4, 3), None);
    Ok(())
}

#[test]
#[tactic(auto, unfolding(hph_type::specs::Order::IsOf))]
fn joins_to_the_nearest_common_ancestor(rt: HostRuntime) -> Result<(), Fail> {
    let tree = five_classes(rt.alloc())?;
    let (c, e) = (Ty::object(ObjPart::Of(2)), Ty::object(ObjPart::Of(4)));
    assert_eq!(rt; join(e, c, &tree), Ty::object(ObjPart::Of(0)));
    assert_eq!(rt;
        join(e, Ty::object(ObjPart::Of(3)), &tree),
        Ty::object(ObjPart::AnyObj)
    );
    Ok(())
}

#[test]
#[tactic(auto, unfolding(hph_type::specs::Order::IsOf))]
fn meets_at_the_lower_class(rt: HostRuntime) -> Result<(), Fail> {
    let tree = five_classes(rt.alloc())?;
    let (b, e) = (Ty::object(ObjPart::Of(1)), Ty::object(ObjPart::Of(4)));
    assert_eq!(rt; meet(b, e, &tree), e);
    assert_eq!(rt; meet(b, Ty::top(), &tree), b);
    assert!(rt; leq(e, b, &tree));
    assert!(rt; !leq(b, e, &tree));
    Ok(())
}

#[test]
fn tells_types_by_their_codes(rt: HostRuntime) -> Result<(), Fail> {
    let e = Ty::object(ObjPart::Of(4));
    assert_eq!(rt; code(e), 1056);
    assert_eq!(rt; of_code(1056), Some(e));
    assert_eq!(rt; of_code(1056 + 128), None);
    assert_eq!(rt; code(Ty::top()), 95);
    assert_eq!(rt; code(Ty::only(Kind::Str)), 8);
    Ok(())
}

#[test]
fn has_the_kinds_that_are_left(rt: HostRuntime) -> Result<(), Fail> {
    let rest = Ty::top().without(Kind::Null);
    assert!(rt; !rest.has(Kind::Null));
    assert!(rt; rest.has(Kind::Arr));
    assert_eq!(rt; rest.object_part(), ObjPart::AnyObj);
    assert_eq!(rt; Ty::only(Kind::Int).without(Kind::Int), Ty::none());
    Ok(())
}
