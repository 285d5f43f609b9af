//! Values as programs hold them.
ghost use Rattle.std.specs.Prelude.{◌≡◌, ◌<◌, IfOk, IfErr, IfSome};
ghost use Rattle.std.specs.List.{sum_by};
ghost use Rattle.hph_array.specs.Array.{array_map};
ghost use Rattle.hph_php.specs.Values.{Str, array_value};
ghost use Rattle.hph_value.specs.declared.value.Value.{size-Value};
ghost use Rattle.hph_value.specs.Shown.{value_of};
ghost use Rattle.hph_value.specs.Weights.{weight, deepest};

use hph_array::{Bytes, OrdMap, Shared};
use hph_php::Fatal;
use std::alloc::{AllocError, Global};
use std::mem;

/// A value of a program (PHP manual, Types).
pub enum Value {
    Null,
    Bool(bool),
    Int(i64),
    /// A string of bytes, whose clones share one buffer.
    Str(Bytes),
    /// An array, whose clones share its pairs.
    Arr(Shared<Elements<Value>>),
    /// The number of an object.
    Obj(u32),
}

/// The pairs of an array.
#[derive(Drop)]
pub struct Elements<V> {
    pub map: OrdMap<V>,
    // It is empty. A value that is let go of is taken apart into such a vector, and the types of the calls that do so are
    // proved by the fields of the value's type.
    spare: Vec<V>,
}

impl<V: Drop> Elements<V> {
    /// The first owner of the pairs of an array.
    pub fn shared(alloc: Global, map: OrdMap<V>) -> Result<Shared<Elements<V>>, AllocError>
        ensures { IfOk result (λ elements. elements.map ≡ map) }
    {
        let spare = Vec::new(alloc);
        Shared::new(alloc, Elements { map, spare })
    }
}

/// Why an operation has no value.
#[derive(Clone, Copy, Debug, PartialEq, Eq)]
pub enum Stop {
    /// A fatal error, which ends the program.
    Fatal(Fatal),
    /// There is no memory.
    NoMemory,
}

impl From<AllocError> for Stop {
    ghost use Rattle.std.specs.Prelude.{◌≡◌};
    ghost use Rattle.hph_value.specs.declared.value.Stop.TheVariants.{NoMemory};

    ghost from_gives = { λ _ stop. stop ≡ NoMemory };

    fn from(_error: AllocError) -> Stop {
        Stop::NoMemory
    }
}

impl From<Fatal> for Stop {
    ghost use Rattle.std.specs.Prelude.{◌≡◌};
    ghost use Rattle.hph_value.specs.declared.value.Stop.TheVariants.{Fatal as Fatally};

    ghost from_gives = { λ fatal stop. stop ≡ Fatally fatal };

    fn from(fatal: Fatal) -> Stop {
        Stop::Fatal(fatal)
    }
}

impl Drop for Value {
    #[cycle(letting_go)]
    fn drop(self) {
        if let Some(values) = self.into_children() {
            let_go(values);
        }
    }
}

impl Value {
    /// The values of an array of which this is the only owner.
    #[cycle(letting_go)]
    fn into_children(self) -> Option<Vec<Value>>
        ensures less { IfSome result (λ children. sum_by weight children.items < weight self) }
        ensures shallower { IfSome result (λ children. deepest children.items < size-Value self) }
    {
        match self {
            Value::Null | Value::Bool(_) | Value::Int(_) | Value::Str(_) | Value::Obj(_) => None,
            Value::Arr(array) => match array.try_own() {
                Ok(elements) => Some(elements.map.into_values()),
                Err(other) => {
                    drop(other);
                    None
                }
            },
        }
    }

    /// The bytes of a string, which aren't copied; else the value itself.
    #[tactic(auto, using(crate::proofs::Shown::shown))]
    pub fn into_string(self) -> Result<Bytes, Value>
        ensures ok { IfOk result (λ bytes. value_of self ≡ Str bytes) }
        ensures err { IfErr result (λ value. value ≡ self) }
    {
        match self {
            Value::Str(bytes) => Ok(bytes),
            other => Err(other),
        }
    }

    /// The pairs of an array, which aren't copied; else the value itself.
    #[tactic(auto, using(crate::proofs::Shown::shown))]
    pub fn into_elements(self) -> Result<Shared<Elements<Value>>, Value>
        ensures ok { IfOk result (λ elements. value_of self ≡ array_value (array_map value_of elements.map)) }
        ensures err { IfErr result (λ value. value ≡ self) }
    {
        match self {
            Value::Arr(elements) => Ok(elements),
            other => Err(other),
        }
    }

    /// The array of these pairs.
    pub fn array(alloc: Global, map: OrdMap<Value>) -> Result<Value, AllocError>
        ensures { IfOk result (λ value. value_of value ≡ array_value (array_map value_of map)) }
    {
        Ok(Value::Arr(Elements::shared(alloc, map)?))
    }
}

/// Lets go of values one by one, with those inside them last on the list. Where there is no memory for a longer list, the
/// values inside are forgotten, and their memory stays taken.
#[cycle(letting_go)]
fn let_go(mut values: Vec<Value>) {
    while let Some(value) = values.pop() {
        if let Some(mut children) = value.into_children() {
            if values.append(&mut children).is_err() {
                mem::forget(children);
            }
        }
    }
}

/// The pairs of an array, to be written: its own where nothing else shares them, which takes no memory, else a copy with
/// room for one more.
pub fn owned_map(array: Shared<Elements<Value>>) -> Result<OrdMap<Value>, AllocError>
    ensures { IfOk result (λ map. map ≡ array.map) }
{
    match array.try_own() {
        Ok(elements) => Ok(elements.map),
        Err(shared) => shared.get().map.copy_with_room(1),
    }
}

impl Clone for Value {
    ghost is_clone = { λ value copy. copy ≡ value };

    fn clone(&self) -> Result<Value, AllocError> {
        Ok(match self {
            Value::Null => Value::Null,
            Value::Bool(truth) => Value::Bool(*truth),
            Value::Int(number) => Value::Int(*number),
            Value::Str(bytes) => Value::Str(bytes.clone()?),
            Value::Arr(array) => Value::Arr(array.clone()?),
            Value::Obj(object) => Value::Obj(*object),
        })
    }
}
