//! The machine of the workers as one value: a system and a state that meets the machine's rule, from the first state on.
//!
//! `Machine::step` takes any event. Where the event isn't enabled, or where there is no memory, the state stays as it
//! was; else the state and the answer are what specs/Events.antt of `hph_core` says. That the rule still holds then is
//! `hph_core`'s law, so that callers owe nothing for it.
#![tactic(auto)]

ghost use Rattle.std.specs.Prelude.{◌≡◌, ◌≤◌, IfOk, IfErr, OnErr};
ghost use Rattle.hph_core.specs.Rule.{KeepsInvariant};
ghost use Rattle.hph_machine.specs.Values.{state_of};
ghost use Rattle.hph_machine.specs.Taking.{Takes, Refuses};
ghost use Rattle.hph_machine_value.specs.Begins.{Begins};

mod first;

use hph_core::{Answer, Event};
use hph_machine::machine::{StepFault, step};
use hph_machine::state::State;
use hph_sys::System;
use std::alloc::{AllocError, Global};
use std::marker::Model;

/// A system, and a state of the machine of its workers that meets the machine's rule.
#[derive(Drop)]
pub struct Machine<'a, S: System> {
    system: &'a S,
    alloc: Global,
    state: State,
}

impl<'a, S: System> Model for Machine<'a, S> {
    ghost use Rattle.hph_core.specs.State.{WorkerState};
    ghost use Rattle.hph_core.specs.Rule.{KeepsInvariant};
    ghost use Rattle.hph_machine.specs.Values.{state_of};

    ghost Value = { S × WorkerState };

    ghost view = { λ m. (m.system.now, state_of m.state) };

    ghost invariant = { λ m. KeepsInvariant (S.shape m.system.now) (state_of m.state) };
}

impl<'a, S: System> Machine<'a, S> {
    /// A machine in the first state, with all scopes in the work set and as many live seats as workers. Err where there
    /// is no memory.
    pub fn new(alloc: Global, system: &'a S, workers: u32) -> Result<Machine<'a, S>, AllocError>
        requires few { workers ≤ 64 }
        ensures system { IfOk result (λ m. m.0 ≡ system.now) }
        ensures first { IfOk result (λ m. Begins (S.shape system.now) workers m.1) }
    {
        let state = first::first_state(alloc, system, workers)?;
        Ok(Machine {
            system,
            alloc,
            state,
        })
    }

    /// The state. It meets the machine's rule.
    pub fn state(&self) -> &State
        ensures state { state_of result.now ≡ self.now.1 }
        ensures rule { KeepsInvariant (S.shape self.now.0) self.now.1 }
    {
        &self.state
    }

    /// One event. Where it isn't enabled, or where there is no memory, the state stays as it was.
    pub fn step(&mut self, event: &Event) -> Result<Answer, StepFault>
        ensures taken { IfOk result (λ answer. Takes (S.shape self.old.0) self.old.1 event.now answer self.new.1) }
        ensures refused { IfErr result (λ fault. Refuses (S.shape self.old.0) self.old.1 event.now fault) }
        ensures unchanged { OnErr result (self.new.1 ≡ self.old.1) }
        ensures system { self.new.0 ≡ self.old.0 }
    {
        step(self.system, self.alloc, &mut self.state, event)
    }
}
