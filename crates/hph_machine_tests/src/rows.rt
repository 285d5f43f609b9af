//! Two workers on the system `Two`, event by event, each with its answer. Worked by hand.

use hph_core::{Answer, Event, Hold};
use hph_type::{Kind, Ty};

/// Worker 0 has scope 0. Worker 1, which finds it held, puts scope 1 back.
pub fn meeting() -> [(Event, Answer); 6] {
    [
        (Event::Take(0, 0), Answer::Bit(true)),
        (Event::TryHold(0, 0), Answer::Held(Hold::Got)),
        (Event::Read(0, 0), Answer::Known(Ty::none())),
        (Event::Take(1, 1), Answer::Bit(true)),
        (Event::TryHold(1, 0), Answer::Held(Hold::Busy(0))),
        (Event::PutBack(1, 1), Answer::Bit(true)),
    ]
}

/// Worker 0 owes a unit for a mark of scope 1, which waits already.
pub fn marking() -> [(Event, Answer); 2] {
    [
        (Event::Add(0), Answer::Nothing),
        (Event::Mark(0, 1), Answer::Bit(false)),
    ]
}

/// It pays the unit.
pub fn paying() -> [(Event, Answer); 1] {
    [(Event::DropOne(0), Answer::Nothing)]
}

/// It raises cell 0 and is done.
pub fn raising() -> [(Event, Answer); 4] {
    [
        (Event::Raise(0, 0, Ty::only(Kind::Int)), Answer::Nothing),
        (Event::DropOne(0), Answer::Nothing),
        (Event::Release(0, 0), Answer::Nothing),
        (Event::ReadPending(0), Answer::Word(1)),
    ]
}

/// Worker 1 holds all that scope 1 looks at, and reads both cells.
pub fn reading() -> [(Event, Answer); 5] {
    [
        (Event::Take(1, 1), Answer::Bit(true)),
        (Event::TryHold(1, 0), Answer::Held(Hold::Got)),
        (Event::TryHold(1, 1), Answer::Held(Hold::Got)),
        (Event::Read(1, 0), Answer::Known(Ty::only(Kind::Int))),
        (Event::Read(1, 1), Answer::Known(Ty::none())),
    ]
}

/// It raises cell 1 and is done, and nothing is pending.
pub fn ending() -> [(Event, Answer); 5] {
    [
        (Event::Raise(1, 1, Ty::only(Kind::Int)), Answer::Nothing),
        (Event::DropOne(1), Answer::Nothing),
        (Event::Release(1, 1), Answer::Nothing),
        (Event::Release(1, 0), Answer::Nothing),
        (Event::ReadPending(1), Answer::Word(0)),
    ]
}
