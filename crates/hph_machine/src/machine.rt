//! One event at a time, on a state that meets the machine's rule.
ghost use Rattle.std.specs.Prelude.{◌≡◌, ◌↔◌, ◌<◌, ◌^◌, ℕ, false, MatchOption, true, Some, IsTrue, IfOk, IfErr, OnErr};
ghost use Rattle.hph_sys.specs.Shape.{IsTyping};
ghost use Rattle.hph_core.specs.State.{entry};
ghost use Rattle.hph_core.specs.Conditions.{MayFinish, MayRaise, IsIdle};
ghost use Rattle.hph_core.specs.Rule.{KeepsInvariant, HandsIn};
ghost use Rattle.hph_core.specs.Events.{Enabled, Lives, hold_of};
ghost use Rattle.hph_core.specs.declared.event.Event.TheVariants as event_of;
ghost use Rattle.hph_machine.specs.Values.{state_of};
ghost use Rattle.hph_machine.specs.Taking.{Takes, Refuses};

use crate::conditions;
use crate::lists::has;
use crate::state::State;
use hph_core::{Answer, Event, Hold, View};
use hph_sys::System;
use hph_type::Ty;
use std::alloc::{AllocError, Global};

/// Why an event wasn't taken.
#[derive(Clone, Copy, Debug, PartialEq, Eq, Drop)]
pub enum StepFault {
    /// The event isn't enabled.
    NotEnabled,
    /// There is no memory.
    NoMemory,
}

// What a try that found this word of a holder answers.
fn hold_of(found: u32) -> Hold
    ensures { result ≡ hold_of found }
{
    if found == 0 {
        Hold::Got
    } else {
        Hold::Busy(found - 1)
    }
}

/// A look at a word of the set.
pub fn peek<S: System>(
    system: &S,
    state: &mut State,
    worker: u32,
    word: u32,
) -> Result<Answer, StepFault>
    requires rule { KeepsInvariant (S.shape system.now) (state_of state.old) }
    ensures taken { IfOk result (λ answer. Takes (S.shape system.now) (state_of state.old) (event_of.Peek worker word) answer (state_of state.new)) }
    ensures refused { IfErr result (λ fault. Refuses (S.shape system.now) (state_of state.old) (event_of.Peek worker word) fault) }
    ensures unchanged { OnErr result (state_of state.new ≡ state_of state.old) }
{
    let may = match state.seat(worker) {
        Some(view) => (word as usize) < state.work.len(),
        None => false,
    };
    if !may {
        return Err(StepFault::NotEnabled);
    }
    match state.peek(worker, word) {
        Ok(found) => Ok(Answer::Word(found)),
        Err(_) => Err(StepFault::NoMemory),
    }
}

/// A look at the number pending.
pub fn read_pending<S: System>(
    system: &S,
    state: &mut State,
    worker: u32,
) -> Result<Answer, StepFault>
    requires rule { KeepsInvariant (S.shape system.now) (state_of state.old) }
    ensures taken { IfOk result (λ answer. Takes (S.shape system.now) (state_of state.old) (event_of.ReadPending worker) answer (state_of state.new)) }
    ensures refused { IfErr result (λ fault. Refuses (S.shape system.now) (state_of state.old) (event_of.ReadPending worker) fault) }
    ensures unchanged { OnErr result (state_of state.new ≡ state_of state.old) }
{
    let may = match state.seat(worker) {
        Some(_) => true,
        None => false,
    };
    if !may {
        return Err(StepFault::NotEnabled);
    }
    match state.read_pending(worker) {
        Ok(found) => Ok(Answer::Word(found)),
        Err(_) => Err(StepFault::NoMemory),
    }
}

/// A look at a cell.
pub fn read<S: System>(
    system: &S,
    state: &mut State,
    worker: u32,
    cell: u32,
) -> Result<Answer, StepFault>
    requires rule { KeepsInvariant (S.shape system.now) (state_of state.old) }
    ensures taken { IfOk result (λ answer. Takes (S.shape system.now) (state_of state.old) (event_of.Read worker cell) answer (state_of state.new)) }
    ensures refused { IfErr result (λ fault. Refuses (S.shape system.now) (state_of state.old) (event_of.Read worker cell) fault) }
    ensures unchanged { OnErr result (state_of state.new ≡ state_of state.old) }
{
    let may = match state.seat(worker) {
        Some(view) => cell < system.cells() && has(&view.holds, system.owner(cell)),
        None => false,
    };
    if !may {
        return Err(StepFault::NotEnabled);
    }
    match state.read(worker, cell, system.owner(cell)) {
        Ok(found) => Ok(Answer::Known(found)),
        Err(_) => Err(StepFault::NoMemory),
    }
}

/// A try to hold a scope.
pub fn try_hold<S: System>(
    system: &S,
    state: &mut State,
    worker: u32,
    scope: u32,
) -> Result<Answer, StepFault>
    requires rule { KeepsInvariant (S.shape system.now) (state_of state.old) }
    ensures taken { IfOk result (λ answer. Takes (S.shape system.now) (state_of state.old) (event_of.TryHold worker scope) answer (state_of state.new)) }
    ensures refused { IfErr result (λ fault. Refuses (S.shape system.now) (state_of state.old) (event_of.TryHold worker scope) fault) }
    ensures unchanged { OnErr result (state_of state.new ≡ state_of state.old) }
{
    let may = match state.seat(worker) {
        Some(view) => scope < system.scopes() && !has(&view.holds, scope),
        None => false,
    };
    if !may {
        return Err(StepFault::NotEnabled);
    }
    match state.try_hold(worker, scope) {
        Ok(found) => Ok(Answer::Held(hold_of(found))),
        Err(_) => Err(StepFault::NoMemory),
    }
}

/// A scope is let go.
pub fn release<S: System>(
    system: &S,
    alloc: Global,
    state: &mut State,
    worker: u32,
    scope: u32,
) -> Result<Answer, StepFault>
    requires rule { KeepsInvariant (S.shape system.now) (state_of state.old) }
    ensures taken { IfOk result (λ answer. Takes (S.shape system.now) (state_of state.old) (event_of.Release worker scope) answer (state_of state.new)) }
    ensures refused { IfErr result (λ fault. Refuses (S.shape system.now) (state_of state.old) (event_of.Release worker scope) fault) }
    ensures unchanged { OnErr result (state_of state.new ≡ state_of state.old) }
{
    let may = match state.seat(worker) {
        Some(view) => scope < system.scopes() && has(&view.holds, scope),
        None => false,
    };
    if !may {
        return Err(StepFault::NotEnabled);
    }
    match state.release(alloc, worker, scope) {
        Ok(()) => Ok(Answer::Nothing),
        Err(_) => Err(StepFault::NoMemory),
    }
}

/// One more is pending.
pub fn add<S: System>(system: &S, state: &mut State, worker: u32) -> Result<Answer, StepFault>
    requires rule { KeepsInvariant (S.shape system.now) (state_of state.old) }
    ensures taken { IfOk result (λ answer. Takes (S.shape system.now) (state_of state.old) (event_of.Add worker) answer (state_of state.new)) }
    ensures refused { IfErr result (λ fault. Refuses (S.shape system.now) (state_of state.old) (event_of.Add worker) fault) }
    ensures unchanged { OnErr result (state_of state.new ≡ state_of state.old) }
{
    // The number of scopes has 32 bits, so that one more pending has 64.
    let _scopes = system.scopes();
    let may = match state.seat(worker) {
        Some(view) => view.hand.is_some() && !view.debt,
        None => false,
    };
    if !may {
        return Err(StepFault::NotEnabled);
    }
    match state.add(worker) {
        Ok(()) => Ok(Answer::Nothing),
        Err(_) => Err(StepFault::NoMemory),
    }
}

/// A try to take a scope out of the set.
pub fn take<S: System>(
    system: &S,
    state: &mut State,
    worker: u32,
    scope: u32,
) -> Result<Answer, StepFault>
    requires rule { KeepsInvariant (S.shape system.now) (state_of state.old) }
    ensures taken { IfOk result (λ answer. Takes (S.shape system.now) (state_of state.old) (event_of.Take worker scope) answer (state_of state.new)) }
    ensures refused { IfErr result (λ fault. Refuses (S.shape system.now) (state_of state.old) (event_of.Take worker scope) fault) }
    ensures unchanged { OnErr result (state_of state.new ≡ state_of state.old) }
{
    let may = match state.seat(worker) {
        Some(view) => scope < system.scopes() && view.hand.is_none() && view.holds.is_empty(),
        None => false,
    };
    if !may {
        return Err(StepFault::NotEnabled);
    }
    match state.take(worker, scope) {
        Ok(bit) => Ok(Answer::Bit(bit == 1)),
        Err(_) => Err(StepFault::NoMemory),
    }
}

// A mark is enabled.
fn may_mark<S: System>(system: &S, state: &State, worker: u32, scope: u32) -> bool
    ensures { IsTrue result ↔ (Enabled (S.shape system.now) (state_of state.now) (event_of.Mark worker scope)) }
{
    match state.seat(worker) {
        Some(view) => conditions::may_mark(system, view, scope),
        None => false,
    }
}

/// A scope is marked.
pub fn mark<S: System>(
    system: &S,
    state: &mut State,
    worker: u32,
    scope: u32,
) -> Result<Answer, StepFault>
    requires rule { KeepsInvariant (S.shape system.now) (state_of state.old) }
    ensures taken { IfOk result (λ answer. Takes (S.shape system.now) (state_of state.old) (event_of.Mark worker scope) answer (state_of state.new)) }
    ensures refused { IfErr result (λ fault. Refuses (S.shape system.now) (state_of state.old) (event_of.Mark worker scope) fault) }
    ensures unchanged { OnErr result (state_of state.new ≡ state_of state.old) }
{
    if !may_mark(system, state, worker, scope) {
        return Err(StepFault::NotEnabled);
    }
    match state.mark(worker, scope) {
        Ok(bit) => Ok(Answer::Bit(bit != 1)),
        Err(_) => Err(StepFault::NoMemory),
    }
}

// A put back is enabled.
fn may_put_back<S: System>(system: &S, state: &State, worker: u32, scope: u32) -> bool
    requires { HandsIn (S.shape system.now) (entry (state_of state.now)) }
    ensures { IsTrue result ↔ (Enabled (S.shape system.now) (state_of state.now) (event_of.PutBack worker scope)) }
{
    match state.seat(worker) {
        Some(view) => conditions::may_put_back(system, view, scope),
        None => false,
    }
}

/// The hand goes back into the set.
pub fn put_back<S: System>(
    system: &S,
    state: &mut State,
    worker: u32,
    scope: u32,
) -> Result<Answer, StepFault>
    requires rule { KeepsInvariant (S.shape system.now) (state_of state.old) }
    ensures taken { IfOk result (λ answer. Takes (S.shape system.now) (state_of state.old) (event_of.PutBack worker scope) answer (state_of state.new)) }
    ensures refused { IfErr result (λ fault. Refuses (S.shape system.now) (state_of state.old) (event_of.PutBack worker scope) fault) }
    ensures unchanged { OnErr result (state_of state.new ≡ state_of state.old) }
{
    if !may_put_back(system, state, worker, scope) {
        return Err(StepFault::NotEnabled);
    }
    match state.put_back(worker, scope) {
        Ok(bit) => Ok(Answer::Bit(bit != 1)),
        Err(_) => Err(StepFault::NoMemory),
    }
}

// The unit that the seat owes is paid.
fn pay<S: System>(system: &S, state: &mut State, worker: u32) -> Result<Answer, StepFault>
    requires rule { KeepsInvariant (S.shape system.now) (state_of state.old) }
    requires owed { (entry (state_of state.old) worker).debt ≡ true }
    ensures taken { IfOk result (λ answer. Takes (S.shape system.now) (state_of state.old) (event_of.DropOne worker) answer (state_of state.new)) }
    ensures refused { IfErr result (λ fault. Refuses (S.shape system.now) (state_of state.old) (event_of.DropOne worker) fault) }
    ensures unchanged { OnErr result (state_of state.new ≡ state_of state.old) }
{
    if state.seat(worker).is_none() {
        return Err(StepFault::NotEnabled);
    }
    match state.pay(worker) {
        Ok(()) => Ok(Answer::Nothing),
        Err(_) => Err(StepFault::NoMemory),
    }
}

// The hand of a live seat where it may be dropped. Err where there is no memory.
fn finished<S: System>(system: &S, cells: &[Ty], view: &View) -> Result<Option<u32>, AllocError>
    requires hand { (s : ℕ) → view.now.hand ≡ Some s → s < (S.shape system.now).scopes }
    requires cells { IsTyping (S.shape system.now) cells.now }
    ensures { IfOk result (λ hand. MatchOption hand (¬ ((s : ℕ) × MayFinish (S.shape system.now) cells.now view.now s)) (λ s. MayFinish (S.shape system.now) cells.now view.now s)) }
{
    let hand = match view.hand {
        Some(hand) => hand,
        None => return Ok(None),
    };
    if conditions::may_finish(system, cells, view, hand)? {
        Ok(Some(hand))
    } else {
        Ok(None)
    }
}

// The hand of the seat, which owes nothing, is dropped.
fn finish<S: System>(system: &S, state: &mut State, worker: u32) -> Result<Answer, StepFault>
    requires rule { KeepsInvariant (S.shape system.now) (state_of state.old) }
    requires not_owed { (entry (state_of state.old) worker).debt ≡ false }
    ensures taken { IfOk result (λ answer. Takes (S.shape system.now) (state_of state.old) (event_of.DropOne worker) answer (state_of state.new)) }
    ensures refused { IfErr result (λ fault. Refuses (S.shape system.now) (state_of state.old) (event_of.DropOne worker) fault) }
    ensures unchanged { OnErr result (state_of state.new ≡ state_of state.old) }
{
    let hand = match state.seat(worker) {
        Some(view) => finished(system, &state.cells, view),
        None => return Err(StepFault::NotEnabled),
    };
    match hand {
        Ok(Some(scope)) => match state.finish(worker, scope) {
            Ok(()) => Ok(Answer::Nothing),
            Err(_) => Err(StepFault::NoMemory),
        },
        Ok(None) => Err(StepFault::NotEnabled),
        Err(_) => Err(StepFault::NoMemory),
    }
}

// A raise by a live seat is enabled.
fn may_raise<S: System>(
    system: &S,
    cells: &[Ty],
    view: &View,
    cell: u32,
    ty: Ty,
) -> Result<bool, AllocError>
    requires hand { (s : ℕ) → view.now.hand ≡ Some s → s < (S.shape system.now).scopes }
    requires cells { IsTyping (S.shape system.now) cells.now }
    requires cell { cell < (S.shape system.now).cells }
    ensures { IfOk result (λ may. IsTrue may ↔ ((s : ℕ) × MayRaise (S.shape system.now) cells.now view.now s cell ((S.shape system.now).owner cell) ty)) }
{
    match view.hand {
        Some(hand) => conditions::may_raise(system, cells, view, hand, cell, ty),
        None => Ok(false),
    }
}

/// A cell gets a greater type.
pub fn raise<S: System>(
    system: &S,
    alloc: Global,
    state: &mut State,
    worker: u32,
    cell: u32,
    ty: Ty,
) -> Result<Answer, StepFault>
    requires rule { KeepsInvariant (S.shape system.now) (state_of state.old) }
    ensures taken { IfOk result (λ answer. Takes (S.shape system.now) (state_of state.old) (event_of.Raise worker cell ty) answer (state_of state.new)) }
    ensures refused { IfErr result (λ fault. Refuses (S.shape system.now) (state_of state.old) (event_of.Raise worker cell ty) fault) }
    ensures unchanged { OnErr result (state_of state.new ≡ state_of state.old) }
{
    if cell >= system.cells() {
        return Err(StepFault::NotEnabled);
    }
    let may = match state.seat(worker) {
        Some(view) => may_raise(system, &state.cells, view, cell, ty),
        None => return Err(StepFault::NotEnabled),
    };
    match may {
        Ok(true) => match state.raise(alloc, worker, cell, system.owner(cell), ty) {
            Ok(()) => Ok(Answer::Nothing),
            Err(_) => Err(StepFault::NoMemory),
        },
        Ok(false) => Err(StepFault::NotEnabled),
        Err(_) => Err(StepFault::NoMemory),
    }
}

/// One less is pending: the unit owed, or the hand.
pub fn drop_one<S: System>(system: &S, state: &mut State, worker: u32) -> Result<Answer, StepFault>
    requires rule { KeepsInvariant (S.shape system.now) (state_of state.old) }
    ensures taken { IfOk result (λ answer. Takes (S.shape system.now) (state_of state.old) (event_of.DropOne worker) answer (state_of state.new)) }
    ensures refused { IfErr result (λ fault. Refuses (S.shape system.now) (state_of state.old) (event_of.DropOne worker) fault) }
    ensures unchanged { OnErr result (state_of state.new ≡ state_of state.old) }
{
    if state.owes(worker) {
        pay(system, state, worker)
    } else {
        finish(system, state, worker)
    }
}

// A seat is idle, as one that splits and those that are joined are.
fn is_idle(state: &State, worker: u32) -> bool
    ensures { IsTrue result ↔ (Lives (state_of state.now) worker × IsIdle (entry (state_of state.now) worker)) }
{
    match state.seat(worker) {
        Some(view) => conditions::is_idle(view),
        None => false,
    }
}

/// The seat of a number is made.
pub fn split<S: System>(
    system: &S,
    alloc: Global,
    state: &mut State,
    worker: u32,
    made: u32,
) -> Result<Answer, StepFault>
    requires rule { KeepsInvariant (S.shape system.now) (state_of state.old) }
    ensures taken { IfOk result (λ answer. Takes (S.shape system.now) (state_of state.old) (event_of.Split worker made) answer (state_of state.new)) }
    ensures refused { IfErr result (λ fault. Refuses (S.shape system.now) (state_of state.old) (event_of.Split worker made) fault) }
    ensures unchanged { OnErr result (state_of state.new ≡ state_of state.old) }
{
    if !is_idle(state, worker) || made as usize >= state.entries.len() {
        return Err(StepFault::NotEnabled);
    }
    if state.entries[made as usize].live {
        return Err(StepFault::NotEnabled);
    }
    state.split(alloc, made);
    Ok(Answer::Nothing)
}

/// The seat of a number is joined into the worker's.
pub fn join<S: System>(
    system: &S,
    alloc: Global,
    state: &mut State,
    worker: u32,
    joined: u32,
) -> Result<Answer, StepFault>
    requires rule { KeepsInvariant (S.shape system.now) (state_of state.old) }
    ensures taken { IfOk result (λ answer. Takes (S.shape system.now) (state_of state.old) (event_of.Join worker joined) answer (state_of state.new)) }
    ensures refused { IfErr result (λ fault. Refuses (S.shape system.now) (state_of state.old) (event_of.Join worker joined) fault) }
    ensures unchanged { OnErr result (state_of state.new ≡ state_of state.old) }
{
    if !is_idle(state, worker) || !is_idle(state, joined) {
        return Err(StepFault::NotEnabled);
    }
    if joined == worker {
        return Err(StepFault::NotEnabled);
    }
    match state.join(alloc, worker, joined) {
        Ok(()) => Ok(Answer::Nothing),
        Err(_) => Err(StepFault::NoMemory),
    }
}

/// One event. Where it isn't enabled, or where there is no memory, the state stays as it was.
pub fn step<S: System>(
    system: &S,
    alloc: Global,
    state: &mut State,
    event: &Event,
) -> Result<Answer, StepFault>
    requires rule { KeepsInvariant (S.shape system.now) (state_of state.old) }
    ensures taken { IfOk result (λ answer. Takes (S.shape system.now) (state_of state.old) event.now answer (state_of state.new)) }
    ensures refused { IfErr result (λ fault. Refuses (S.shape system.now) (state_of state.old) event.now fault) }
    ensures unchanged { OnErr result (state_of state.new ≡ state_of state.old) }
{
    match *event {
        Event::Peek(worker, word) => peek(system, state, worker, word),
        Event::Take(worker, scope) => take(system, state, worker, scope),
        Event::Mark(worker, scope) => mark(system, state, worker, scope),
        Event::PutBack(worker, scope) => put_back(system, state, worker, scope),
        Event::TryHold(worker, scope) => try_hold(system, state, worker, scope),
        Event::Release(worker, scope) => release(system, alloc, state, worker, scope),
        Event::Read(worker, cell) => read(system, state, worker, cell),
        Event::Raise(worker, cell, ty) => raise(system, alloc, state, worker, cell, ty),
        Event::Add(worker) => add(system, state, worker),
        Event::DropOne(worker) => drop_one(system, state, worker),
        Event::ReadPending(worker) => read_pending(system, state, worker),
        Event::Split(worker, made) => split(system, alloc, state, worker, made),
        Event::Join(worker, joined) => join(system, alloc, state, worker, joined),
    }
}
