//! The state, and what is taken off its operand stack and put there.
ghost use Rattle.std.specs.Prelude.{◌≡◌, ℕ, List, Result, OnOk};
ghost use Rattle.hph_php.specs.declared.fatal.Fatal.{Fatal};
ghost use Rattle.hph_php.specs.Values as php;
ghost use Rattle.hph_effects.specs.Hosts.{a_value, the_text, done, push, push_item, popped, popped_any, popped_item, popped_text, settled};
ghost use Rattle.hph_value.specs.Shown.{value_of};
ghost use Rattle.hph_value.specs.Shown as value;
ghost use Rattle.hph_host_state.specs.States.{item_of, seen, Takes, Serves, Finds};

use crate::item::{Held, Item};
use hph_array::Bytes;
use hph_php::Fatal;
use hph_pile::Pile;
use hph_value::{Stop, Value};
use std::alloc::{AllocError, Global};

/// The state of a host that serves a program, without its output.
#[derive(Drop)]
pub struct State {
    pub alloc: Global,
    pub stack: Pile<Item>,
    pub holds: Pile<Held>,
}

/// What comes of a call of a function of the host: its result, if it has one, or why the run ends.
pub type Answer = Result<Option<u64>, Stop>;

/// A wrong use of a function.
pub const MISUSE: Stop = Stop::Fatal(Fatal::Misuse);

impl State {
    /// The item on top, which is taken.
    pub fn pop_any(&mut self) -> Result<Item, Stop>
        ensures { Takes popped_any item_of result self.old self.new }
    {
        match self.stack.pop() {
            Some(item) => Ok(item),
            None => Err(MISUSE),
        }
    }

    /// The item on top, which is taken, as one that may be moved and copied.
    pub fn pop_item(&mut self) -> Result<Item, Stop>
        ensures { Takes popped_item item_of result self.old self.new }
    {
        self.pop_any()
    }

    /// The value on top, which is taken. A misuse where another item is there, or none.
    pub fn pop_value(&mut self) -> Result<Value, Stop>
        ensures { Takes popped value_of result self.old self.new }
    {
        match self.pop_any()? {
            Item::Value(value) => Ok(value),
            _ => Err(MISUSE),
        }
    }

    /// The bytes of the string on top, which is taken. A misuse where another item is there, or none.
    pub fn pop_text(&mut self) -> Result<Bytes, Stop>
        ensures { Takes popped_text (λ text. text) result self.old self.new }
    {
        match self.pop_any()? {
            Item::Value(value) => text_of(&value),
            _ => Err(MISUSE),
        }
    }

    /// Puts an item on top, before more is done.
    pub fn put(&mut self, item: Item) -> Result<(), AllocError>
        ensures { OnOk result ((out : List ℕ) → seen out self.new ≡ push_item (item_of item) (seen out self.old)) }
    {
        self.stack.push(item)
    }

    /// Puts an item on top.
    pub fn push(&mut self, item: Item) -> Answer
        ensures { Serves result (λ h. done (push_item (item_of item) h)) self.old self.new }
    {
        self.stack.push(item)?;
        Ok(None)
    }

    /// Puts a value on top.
    pub fn push_value(&mut self, value: Value) -> Answer
        ensures { Serves result (λ h. done (push (value_of value) h)) self.old self.new }
    {
        self.push(Item::Value(value))
    }

    /// Puts the value of a rule on top. Its fatal error ends the run.
    pub fn settle(&mut self, answer: Result<Value, Stop>) -> Answer
        ensures { (given : Result php.Value Fatal) → value.Tells answer given → Serves result (settled given) self.old self.new }
    {
        match answer {
            Ok(value) => self.push_value(value),
            Err(stop) => Err(stop),
        }
    }
}

/// The bytes of a string. A misuse for another value.
#[tactic(auto, using(crate::proofs::Shown::shown))]
fn text_of(value: &Value) -> Result<Bytes, Stop>
    ensures { Finds (λ text. text) result (the_text (a_value (value_of value.now))) }
{
    match value {
        Value::Str(text) => Ok(text.clone()?),
        _ => Err(MISUSE),
    }
}
