//! Rows of what is held: items that wait, and loops over arrays.
ghost use Rattle.std.specs.Prelude.{◌≡◌, [], ◌∷◌};
ghost use Rattle.hph_array.specs.declared.key.Key.{Key};
ghost use Rattle.hph_php.specs.Conversions.{value_of_key};
ghost use Rattle.hph_effects.specs.Hosts.{an_iterator, hold_on};
ghost use Rattle.hph_effects.specs.Holds as holds;
ghost use Rattle.hph_php.specs.Statements as php;
ghost use Rattle.hph_value.specs.Shown.{value_of, TellsBy};
ghost use Rattle.hph_host_state.specs.States.{left, Serves};

use hph_array::Shared;
use hph_host_state::{Answer, Held, Item, MISUSE, State, Turns};
use hph_php::Fatal;
use hph_value::{Elements, Stop, Value, key_value};

/// `hold`: the item on top is held.
pub fn hold(state: &mut State) -> Answer
    ensures { Serves result holds.hold state.old state.new }
{
    let item = state.pop_item()?;
    state.holds.push(Held::Item(item))?;
    Ok(None)
}

/// `held`: puts a copy of the item that is held last on top. A misuse where that is a loop, or none.
pub fn held(state: &mut State) -> Answer
    ensures { Serves result holds.held state.old state.new }
{
    match state.holds.at(0) {
        Some(Held::Item(item)) => {
            let copy = item.clone()?;
            state.push(copy)
        }
        Some(Held::Loop(_)) => Err(MISUSE),
        None => Err(MISUSE),
    }
}

/// `unhold`: lets go of what is held last.
pub fn unhold(state: &mut State) -> Answer
    ensures { Serves result holds.unhold state.old state.new }
{
    match state.holds.pop() {
        Some(_) => Ok(None),
        None => Err(MISUSE),
    }
}

/// What a loop over a value goes through: the pairs of an array as they are now, nothing for other values. `ObjectUse` for an
/// object.
#[tactic(auto, using(crate::proofs::Shown::shown))]
fn turns_of(value: &Value) -> Result<Turns, Stop>
    ensures { TellsBy left result (php.turns_of (value_of value.now)) }
{
    match value {
        Value::Arr(elements) => Ok(Turns::Over(elements.clone()?, 0)),
        Value::Obj(_) => Err(Stop::Fatal(Fatal::ObjectUse)),
        Value::Null | Value::Bool(_) | Value::Int(_) | Value::Str(_) => Ok(Turns::Nothing),
    }
}

/// `iter`: a loop over the value on top, which is taken, is held.
pub fn iter(state: &mut State) -> Answer
    ensures { Serves result holds.iter state.old state.new }
{
    let value = state.pop_value()?;
    let turns = turns_of(&value)?;
    state.holds.push(Held::Loop(turns))?;
    Ok(None)
}

/// `next`: takes the next pair of the loop that is held last, its key first, and gives 1, or 0 where none is left. A misuse where
/// an item is held last, or nothing.
pub fn next(state: &mut State) -> Answer
    ensures { Serves result holds.next state.old state.new }
{
    match state.holds.pop() {
        Some(Held::Loop(Turns::Over(elements, at))) => turn(state, elements, at),
        Some(Held::Loop(Turns::Nothing)) => end(state, Turns::Nothing),
        Some(Held::Item(_)) => Err(MISUSE),
        None => Err(MISUSE),
    }
}

/// A loop that has nothing left is held again.
fn end(state: &mut State, turns: Turns) -> Answer
    requires { left turns ≡ [] }
    ensures { Serves result (λ h. holds.next (hold_on (an_iterator (left turns)) h)) state.old state.new }
{
    state.holds.push(Held::Loop(turns))?;
    Ok(Some(0))
}

/// A loop over the pairs of an array from a place on takes the next one.
fn turn(state: &mut State, elements: Shared<Elements<Value>>, at: usize) -> Answer
    ensures { Serves result (λ h. holds.next (hold_on (an_iterator (left (Turns.Over elements at))) h)) state.old state.new }
{
    match elements.get().map.at(at) {
        None => end(state, Turns::Over(elements, at)),
        Some((key, value)) => {
            let key = key_value(key)?;
            let value = value.clone()?;
            let pairs = elements.get().map.len();
            prove!(at < pairs);
            take_turn(state, Turns::Over(elements, at + 1), key, value)
        }
    }
}

/// A loop is held again, behind a pair that it takes.
fn take_turn(state: &mut State, rest: Turns, key: Value, value: Value) -> Answer
    ensures { (k : Key) → value_of key ≡ value_of_key k → Serves result (λ h. holds.next (hold_on (an_iterator ((k, value_of value) ∷ left rest)) h)) state.old state.new }
{
    state.holds.push(Held::Loop(rest))?;
    state.put(Item::Value(key))?;
    state.put(Item::Value(value))?;
    Ok(Some(1))
}
