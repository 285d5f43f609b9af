//! The locals of a function that runs.
ghost use Rattle.std.specs.Prelude.{◌≡◌, ◌≤◌, ◌++◌, [], drop, length, slice_get, IfOk};
ghost use Rattle.hph_wasm.specs.Choice.{if_some};
ghost use Rattle.hph_wasm.specs.Values.{zero_values};
ghost use Rattle.hph_wstate.specs.Written.{Written};

use crate::far::FarLocals;
use crate::zero::push_zeros;
use hph_wasm::{Locals, Value};
use sqlite_items::{Items, at};
use std::alloc::{AllocError, Global};
use std::marker::Model;

/// The values of a function's parameters and locals. The first locals take room at once, the others when they are written, so
/// that a call takes no more than a function's code and a constant. Contracts see the list of all values.
#[derive(Drop)]
pub struct FrameLocals<'m> {
    near: Items<Value>,
    far: Option<Box<FarLocals<'m>>>,
}

impl<'m> Model for FrameLocals<'m> {
    ghost use Rattle.std.specs.Prelude.{List, [], ◌++◌};
    ghost use Rattle.hph_wasm.specs.declared.value.Value as value;
    ghost use Rattle.hph_wasm.specs.Choice.{if_some};

    ghost Value = { List value.Value };

    ghost view = { λ l. l.near ++ if_some l.far [] (λ far. far.value) };
}

/// How many locals take room at once.
fn near_count(locals: &Locals) -> u32
    ensures within { result ≤ length locals.now }
    ensures few { result ≤ 64 }
{
    locals.len().min(64)
}

/// The locals behind so many, if there are more.
fn far_locals<'m>(
    alloc: Global,
    locals: &'m Locals,
    first: u32,
) -> Result<Option<Box<FarLocals<'m>>>, AllocError>
    requires { first ≤ length locals.now }
    ensures { IfOk result (λ far. if_some far [] (λ far. far.value) ≡ zero_values (drop first locals.now)) }
{
    if first == locals.len() {
        return Ok(None);
    }
    let far = FarLocals::new(alloc, locals, first);
    Ok(Some(Box::new(alloc, far)?))
}

/// Writes a local behind the first ones; false where there is none.
fn set_far(
    far: &mut Option<Box<FarLocals<'_>>>,
    place: usize,
    value: Value,
) -> Result<bool, AllocError>
    ensures { IfOk result (λ there. Written place value (if_some far.old [] (λ far. far.value)) there (if_some far.new [] (λ far. far.value))) }
{
    let Some(locals) = far else {
        return Ok(false);
    };
    locals.set(place, value)
}

impl<'m> FrameLocals<'m> {
    /// No locals.
    pub fn none(alloc: Global) -> FrameLocals<'m>
        ensures { result ≡ [] }
    {
        FrameLocals {
            near: Items::new(alloc),
            far: None,
        }
    }

    /// The locals of a function that is entered: its arguments, and zeros behind them.
    pub fn of_call(
        alloc: Global,
        passed: Items<Value>,
        locals: &'m Locals,
    ) -> Result<FrameLocals<'m>, AllocError>
        ensures { IfOk result (λ all. all ≡ passed ++ zero_values locals.now) }
    {
        let count = near_count(locals);
        let far = far_locals(alloc, locals, count)?;
        let mut near = passed;
        push_zeros(&mut near, locals, count)?;
        Ok(FrameLocals { near, far })
    }

    /// The value of a local.
    pub fn get(&self, x: u32) -> Option<Value>
        ensures { result ≡ slice_get self.now x }
    {
        let place = x as usize;
        let count = self.near.len();
        if place < count {
            at(self.near.as_slice(), place).copied()
        } else {
            match &self.far {
                None => None,
                Some(far) => far.get(place - count),
            }
        }
    }

    /// Writes a local; false where there is none.
    pub fn set(&mut self, x: u32, value: Value) -> Result<bool, AllocError>
        ensures { IfOk result (λ there. Written x value self.old there self.new) }
    {
        let place = x as usize;
        let count = self.near.len();
        if place < count {
            self.near.set(place, value);
            Ok(true)
        } else {
            set_far(&mut self.far, place - count, value)
        }
    }
}
