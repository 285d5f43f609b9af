//! Values that only contracts read, as the output of a program over a sink that doesn't tell what it has taken.
#![tactic(auto)]

ghost use Rattle.std.specs.Prelude.{◌≡◌};
ghost use Rattle.std.specs.Borrow.{ftrue};

use std::marker::{Model, PhantomData};

/// A value of `T` as contracts see it. It has no bytes, takes no memory and owns nothing, and no code can find it out. So a
/// clause on it says as much as ties it to what code does.
pub struct Ghost<T> {
    marker: PhantomData<T>,
    pub ghost value: { T },
}

impl<T> Model for Ghost<T> {
    ghost also_owns = { λ _. ftrue };
}

/// How a ghost value follows from what code has at hand, ghost values among it.
pub trait Follows<X, T> {
    ghost from: { X → T };
}

impl<T> Ghost<T> {
    /// The ghost value that follows from `known` by the rule `R`.
    pub fn of<X, R: Follows<X, T>>(known: &X) -> Ghost<T>
        ensures { result.value ≡ R.from known.now }
    {
        let _ = known;
        Ghost {
            marker: PhantomData,
        }
    }
}

impl<T> Drop for Ghost<T> {
    fn drop(self) {
        let Self { marker: _ } = self;
    }
}
