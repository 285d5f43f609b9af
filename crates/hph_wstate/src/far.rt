//! The locals of a function behind its first ones.
ghost use Rattle.std.specs.Prelude.{◌≡◌, ◌≤◌, drop, length, slice_get, IfOk};
ghost use Rattle.hph_wasm.specs.Values.{zero_values};
ghost use Rattle.hph_wstate.specs.Written.{Written};

use crate::zero::zero;
use hph_wasm::{Locals, Value};
use std::alloc::{AllocError, Global};
use std::collections::BTreeMap;
use std::marker::Model;

/// The values of locals behind the first ones, of which only those take room that have been written. Contracts see the list of all.
#[derive(Drop)]
pub struct FarLocals<'m> {
    written: BTreeMap<u32, Value>,
    types: &'m Locals,
    first: u32,
}

impl<'m> Model for FarLocals<'m> {
    ghost use Rattle.std.specs.Prelude.{◌≤◌, List, drop, length};
    ghost use Rattle.hph_wasm.specs.declared.value.Value as value;
    ghost use Rattle.hph_wstate.specs.Written.{values_from};

    ghost Value = { List value.Value };

    ghost view = { λ l. values_from l.written 0 (drop l.first l.types.now) };

    ghost invariant = { λ l. l.first ≤ length l.types.now };
}

impl<'m> FarLocals<'m> {
    /// The locals behind so many, all of which are zero.
    #[tactic(auto, using(crate::proofs::Zeros::none_written))]
    pub fn new(alloc: Global, types: &'m Locals, first: u32) -> FarLocals<'m>
        requires { first ≤ length types.now }
        ensures { result ≡ zero_values (drop first types.now) }
    {
        FarLocals {
            written: BTreeMap::new(alloc),
            types,
            first,
        }
    }

    /// The value of a local, by its place behind the first ones.
    pub fn get(&self, place: usize) -> Option<Value>
        ensures { result ≡ slice_get self.now place }
    {
        let left = self.types.len() - self.first;
        if place >= left as usize {
            return None;
        }
        match self.written.get(&(place as u32)) {
            Some(value) => Some(*value),
            None => match self.types.get(self.first + place as u32) {
                Some(ty) => Some(zero(ty)),
                None => None,
            },
        }
    }

    /// Writes a local; false where there is none.
    pub fn set(&mut self, place: usize, value: Value) -> Result<bool, AllocError>
        ensures { IfOk result (λ there. Written place value self.old there self.new) }
    {
        let left = self.types.len() - self.first;
        if place >= left as usize {
            return Ok(false);
        }
        self.written.insert(place as u32, value)?;
        Ok(true)
    }
}
