ghost use Rattle.std.specs.Prelude.{◌≡◌};

use hph_array::{Key, OrdMap, Shared};
use std::alloc::{AllocError, Global};
use std::test::Fail;

// A value of a program with ints and arrays alone. It contains itself through the map.
#[derive(Drop)]
enum Value {
    Int(i64),
    Arr(Shared<OrdMap<Value>>),
}

impl Clone for Value {
    ghost is_clone = { λ value copy. copy ≡ value };

    fn clone(&self) -> Result<Value, AllocError> {
        match self {
            Value::Int(number) => Ok(Value::Int(*number)),
            Value::Arr(array) => Ok(Value::Arr(array.clone()?)),
        }
    }
}

fn is_same(a: &Value, b: &Value) -> bool {
    match (a, b) {
        (Value::Int(x), Value::Int(y)) => *x == *y,
        (Value::Arr(x), Value::Arr(y)) => {
            let (x, y) = (x.get(), y.get());
            for index in 0..x.len() {
                let Some((key, value)) = x.at(index) else {
                    return false;
                };
                let Some((other_key, other)) = y.at(index) else {
                    return false;
                };
                if *key != *other_key || !is_same(value, other) {
                    return false;
                }
            }
            x.len() == y.len()
        }
        _ => false,
    }
}

// The array with this number at 0, inside as many others as there are levels.
fn nested(alloc: Global, levels: u32, number: i64) -> Result<Value, AllocError> {
    let mut value = Value::Int(number);
    for _ in 0..levels {
        let mut outer = OrdMap::new(alloc);
        outer.set(Key::Int(0), value)?;
        value = Value::Arr(Shared::new(alloc, outer)?);
    }
    Ok(value)
}

// Whether five levels round 1 are the same as so many levels round a number.
fn is_so_nested(alloc: Global, levels: u32, number: i64) -> Result<bool, AllocError> {
    let first = nested(alloc, 5, 1)?;
    let second = nested(alloc, levels, number)?;
    Ok(is_same(&first, &second))
}

fn is_cloned(alloc: Global) -> Result<bool, AllocError> {
    let first = nested(alloc, 5, 1)?;
    let second = first.clone()?;
    Ok(is_same(&first, &second))
}

#[test]
fn holds_values_that_hold_values(rt: HostRuntime) -> Result<(), Fail> {
    let alloc = rt.alloc();
    assert!(rt; is_cloned(alloc)? && is_so_nested(alloc, 5, 1)?);
    assert!(rt; !is_so_nested(alloc, 5, 2)? && !is_so_nested(alloc, 4, 1)?);
    Ok(())
}

fn array_of(alloc: Global, value: Value) -> Result<OrdMap<Value>, AllocError> {
    let mut map = OrdMap::new(alloc);
    map.set(Key::Int(0), value)?;
    Ok(map)
}

// A copy with 2 written at 0.
fn written_copy(map: &OrdMap<Value>) -> Result<OrdMap<Value>, AllocError> {
    let mut copy = map.copy()?;
    copy.set(Key::Int(0), Value::Int(2))?;
    Ok(copy)
}

fn has_at_zero(map: &OrdMap<Value>, want: &Value) -> bool {
    match map.get(&Key::Int(0)) {
        Some(value) => is_same(value, want),
        None => false,
    }
}

// Whether an array of two levels round 1 has them still, once its copy is written.
fn is_left(alloc: Global, map: &OrdMap<Value>) -> Result<bool, AllocError> {
    let copy = written_copy(map)?;
    let want = nested(alloc, 2, 1)?;
    Ok(has_at_zero(map, &want) && has_at_zero(&copy, &Value::Int(2)))
}

#[test]
fn changes_a_copy_alone(rt: HostRuntime) -> Result<(), Fail> {
    let alloc = rt.alloc();
    let map = array_of(alloc, nested(alloc, 2, 1)?)?;
    let left = is_left(alloc, &map)?;
    assert!(rt; left);
    Ok(())
}
