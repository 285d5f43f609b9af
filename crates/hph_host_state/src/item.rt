//! What stands on the stacks of a host.
ghost use Rattle.std.specs.Prelude.{◌≡◌};

use hph_array::{Bytes, Shared};
use hph_value::{Elements, Value};
use std::alloc::AllocError;

/// An item of the operand stack.
#[derive(Drop)]
pub enum Item {
    Value(Value),
    /// A step of a path to the element at a key, which is converted when the path is walked.
    Key(Value),
    /// A step to a new element at the end of an array.
    Append,
    /// A step to the property of a name.
    Property(Bytes),
}

impl Clone for Item {
    ghost is_clone = { λ item copy. copy ≡ item };

    fn clone(&self) -> Result<Item, AllocError> {
        Ok(match self {
            Item::Value(value) => Item::Value(value.clone()?),
            Item::Key(key) => Item::Key(key.clone()?),
            Item::Append => Item::Append,
            Item::Property(name) => Item::Property(name.clone()?),
        })
    }
}

/// What is held beside the operand stack.
#[derive(Drop)]
pub enum Held {
    Item(Item),
    Loop(Turns),
}

/// What a loop over a value has still to go through.
#[derive(Drop)]
pub enum Turns {
    /// The pairs of an array from a place on. The array is shared, so what is written to a variable that holds it doesn't show.
    Over(Shared<Elements<Value>>, usize),
    /// Nothing, for a value that is no array.
    Nothing,
}
