ghost use Rattle.std.specs.Prelude.{◌≡◌, ◌<◌, IfOk};
ghost use Rattle.hph_sys.specs.Shape.{IsTyping};

use hph_sys::System;
use hph_sys::examples::Two;
use hph_type::{Kind, Ty};
use std::alloc::AllocError;
use std::test::Fail;

// What a scope of any system asks.
fn pairs_of<S: System>(system: &S, scope: u32, known: &[Ty]) -> Result<Vec<(u32, Ty)>, AllocError>
    requires scope { scope < (S.shape system.now).scopes }
    requires known { IsTyping (S.shape system.now) known.now }
    ensures { IfOk result (λ pairs. pairs.items ≡ (S.shape system.now).contrib scope known.now) }
{
    system.contrib(scope, known)
}

#[test]
fn asks_the_type_of_the_cell_that_is_read(rt: HostRuntime) -> Result<(), Fail> {
    let two = Two::new(rt.alloc())?;
    let int = Ty::only(Kind::Int);
    let known = [int, Ty::none()];
    let pairs = pairs_of(&two, 1, &known)?;
    match pairs.first() {
        Some((cell, asked)) => assert!(rt; *cell == 1 && *asked == int),
        None => panic!(rt; "a pair is asked"),
    }
    Ok(())
}

// Systems and types pass between threads.
fn is_shared<T: Send + Sync>(_value: &T) {}

#[test]
fn passes_between_threads(rt: HostRuntime) -> Result<(), Fail> {
    is_shared(&Two::new(rt.alloc())?);
    is_shared(&Ty::top());
    Ok(())
}

#[test]
fn looks_at_the_owners_of_its_cells(rt: HostRuntime) -> Result<(), Fail> {
    let two = Two::new(rt.alloc())?;
    assert_eq!(rt; two.scopes(), 2);
    assert_eq!(rt; two.cells(), 2);
    assert_eq!(rt; two.owner(1), 1);
    assert_eq!(rt; two.look(1).len(), 2);
    assert_eq!(rt; two.readers(0).first().copied(), Some(1));
    assert_eq!(rt; two.tree().height(), 7);
    Ok(())
}
