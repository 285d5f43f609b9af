use crate::chain::Chain;
use hph_plain::plain;
use hph_sys::examples::Two;
use hph_type::{Kind, ObjPart, Ty};
use std::test::Fail;

#[test]
fn what_is_asked_of_one_cell_is_handed_on(rt: HostRuntime) -> Result<(), Fail> {
    let typing = plain(rt.alloc(), &Two::new(rt.alloc())?)?;
    let int = Ty::only(Kind::Int);
    assert_eq!(rt; typing.as_slice(), [int, int].as_slice());
    Ok(())
}

#[test]
fn a_chain_ends_in_the_nearest_class_above_both(rt: HostRuntime) -> Result<(), Fail> {
    let typing = plain(rt.alloc(), &Chain::new(rt.alloc())?)?;
    let first = Ty::object(ObjPart::Of(1));
    let both = Ty::object(ObjPart::Of(0));
    assert_eq!(rt; typing.as_slice(), [first, first, both].as_slice());
    Ok(())
}
