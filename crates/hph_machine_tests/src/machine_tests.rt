use crate::rows::{ending, marking, meeting, paying, raising, reading};
use hph_core::{Answer, Event, View};
use hph_machine::machine::StepFault;
use hph_machine::state::State;
use hph_machine_value::Machine;
use hph_sys::System;
use hph_sys::examples::Two;
use hph_type::{Kind, Ty};
use std::collections::LinkedList;
use std::test::Fail;

// Each event is taken, and answers as its row says.
fn goes_through<S: System>(machine: &mut Machine<S>, rows: &[(Event, Answer)]) -> bool {
    for (event, answer) in rows {
        match machine.step(event) {
            Ok(found) => {
                if found != *answer {
                    return false;
                }
            }
            Err(_) => return false,
        }
    }
    true
}

// The event is refused, as one that isn't enabled.
fn is_refused<S: System>(machine: &mut Machine<S>, event: &Event) -> bool {
    match machine.step(event) {
        Ok(_) => false,
        Err(fault) => fault == StepFault::NotEnabled,
    }
}

fn are_equal(a: &LinkedList<u32>, b: &LinkedList<u32>) -> bool {
    let mut others = b.iter();
    for number in a {
        match others.next() {
            Some(other) => {
                if number != other {
                    return false;
                }
            }
            None => return false,
        }
    }
    others.next().is_none()
}

// Seats with the same hand, holds, marks and debt, and as many known cells and findings.
fn is_same_seat(a: &View, b: &View) -> bool {
    a.live == b.live
        && a.number == b.number
        && a.hand == b.hand
        && are_equal(&a.holds, &b.holds)
        && are_equal(&a.marks, &b.marks)
        && a.debt == b.debt
        && a.known.len() == b.known.len()
        && a.findings.len() == b.findings.len()
}

// States with the same words, and with the same seats.
fn are_same(a: &State, b: &State) -> bool {
    if a.cells.as_slice() != b.cells.as_slice() || a.pending != b.pending {
        return false;
    }
    if a.holders.as_slice() != b.holders.as_slice() || a.work.as_slice() != b.work.as_slice() {
        return false;
    }
    for (one, other) in a.entries.iter().zip(b.entries.iter()) {
        if !is_same_seat(one, other) {
            return false;
        }
    }
    a.entries.len() == b.entries.len()
}

// The number pending, and the cells.
fn has(state: &State, pending: u64, cells: &[Ty]) -> bool {
    state.pending == pending && state.cells.as_slice() == cells
}

// The whole table, with the number pending and the cells after each part.
fn is_worked<S: System>(machine: &mut Machine<S>) -> bool {
    let (none, int) = (Ty::none(), Ty::only(Kind::Int));
    goes_through(machine, &meeting())
        && has(machine.state(), 2, &[none, none])
        && goes_through(machine, &marking())
        && has(machine.state(), 3, &[none, none])
        && goes_through(machine, &paying())
        && has(machine.state(), 2, &[none, none])
        && goes_through(machine, &raising())
        && has(machine.state(), 1, &[int, none])
        && goes_through(machine, &reading())
        && goes_through(machine, &ending())
        && has(machine.state(), 0, &[int, int])
}

// Both machines go through the events.
fn both_go<S: System>(
    one: &mut Machine<S>,
    other: &mut Machine<S>,
    rows: &[(Event, Answer)],
) -> bool {
    goes_through(one, rows) && goes_through(other, rows)
}

// Before the cell's reader is marked, a raise is refused, and leaves a machine as one that wasn't asked for it.
fn refuses_before_the_mark<S: System>(one: &mut Machine<S>, other: &Machine<S>) -> bool {
    is_refused(one, &Event::Raise(0, 0, Ty::only(Kind::Int)))
        && are_same(one.state(), other.state())
}

// Once the unit is paid, a raise to a type that nothing asks, a drop of a hand whose pairs aren't met and a put back of
// a hand whose scopes were all got are refused, and each leaves a machine as one that wasn't asked for it.
fn refuses_after_the_mark<S: System>(one: &mut Machine<S>, other: &Machine<S>) -> bool {
    is_refused(one, &Event::Raise(0, 0, Ty::only(Kind::Str)))
        && are_same(one.state(), other.state())
        && is_refused(one, &Event::DropOne(0))
        && are_same(one.state(), other.state())
        && is_refused(one, &Event::PutBack(0, 0))
        && are_same(one.state(), other.state())
}

// An event that is taken makes a difference.
fn differs<S: System>(one: &mut Machine<S>, other: &Machine<S>, rows: &[(Event, Answer)]) -> bool {
    goes_through(one, rows) && !are_same(one.state(), other.state())
}

#[test]
fn two_workers_find_int(rt: HostRuntime) -> Result<(), Fail> {
    let two = Two::new(rt.alloc())?;
    let mut machine = Machine::new(rt.alloc(), &two, 2)?;
    assert!(rt; is_worked(&mut machine));
    Ok(())
}

// Of two machines that go through the same events, one is also asked for events that aren't enabled.
#[test]
fn what_is_not_enabled_changes_nothing(rt: HostRuntime) -> Result<(), Fail> {
    let two = Two::new(rt.alloc())?;
    let mut one = Machine::new(rt.alloc(), &two, 2)?;
    let mut other = Machine::new(rt.alloc(), &two, 2)?;
    assert!(rt;
        both_go(&mut one, &mut other, &meeting()) && refuses_before_the_mark(&mut one, &other)
    );
    assert!(rt;
        both_go(&mut one, &mut other, &marking()) && both_go(&mut one, &mut other, &paying())
    );
    assert!(rt; refuses_after_the_mark(&mut one, &other));
    assert!(rt; differs(&mut one, &other, &raising()));
    Ok(())
}
