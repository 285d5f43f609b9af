use crate::steps::{Name, Step, holds, take_steps};
use Name::{Int, Str};
use Step::{Append, Pop, Set, Unset};
use hph_array::{Key, OrdMap, Shared};
use std::alloc::{AllocError, Global};
use std::test::Fail;

// The array after steps.
fn after(alloc: Global, steps: &[Step]) -> Result<OrdMap<i64>, AllocError> {
    let mut map = OrdMap::new(alloc);
    take_steps(alloc, &mut map, steps)?;
    Ok(map)
}

fn lacks(map: &OrdMap<i64>, number: i64) -> bool {
    map.get(&Key::Int(number)).is_none()
}

#[test]
fn finds_a_value_by_an_equal_key(rt: HostRuntime) -> Result<(), Fail> {
    let map = after(rt.alloc(), &[Set(Str("7"), 1), Set(Int(7), 2)])?;
    let finds = holds(&map, &[(Str("7"), 1), (Int(7), 2)], 8);
    assert!(rt; finds && lacks(&map, 8) && !map.is_empty());
    Ok(())
}

// Arrays of each form: a list, one with a key removed, and one with an index.
static MADE: [&[Step]; 3] = [
    &[Append(1), Append(2), Append(3)],
    &[Append(1), Append(2), Append(3), Append(4), Unset(Int(1))],
    &[Append(1), Set(Str("k"), 2), Set(Int(-3), 3)],
];

// What is done to an array whose copy is to stay.
static CHANGES: [Step; 6] = [
    Set(Int(0), 7),
    Append(8),
    Set(Int(2), 9),
    Set(Str("x"), 1),
    Unset(Int(0)),
    Pop,
];

// Whether two arrays have the same pairs in order, each found in both, and the same next key.
fn is_same(first: &OrdMap<i64>, second: &OrdMap<i64>) -> bool {
    for place in 0..first.len() {
        let Some((key, value)) = first.at(place) else {
            return false;
        };
        let Some((other, _)) = second.at(place) else {
            return false;
        };
        if *key != *other || second.get(key).copied() != Some(*value) {
            return false;
        }
    }
    first.len() == second.len() && first.next_key() == second.next_key()
}

// Whether changes to an array leave another as these steps made it.
fn leaves(
    alloc: Global,
    changed: &mut OrdMap<i64>,
    other: &OrdMap<i64>,
    steps: &[Step],
) -> Result<bool, AllocError> {
    take_steps(alloc, changed, &CHANGES)?;
    let made = after(alloc, steps)?;
    Ok(is_same(other, &made))
}

// Whether changes to an array leave its copy.
fn copy_stays(alloc: Global, steps: &[Step]) -> Result<bool, AllocError> {
    let mut map = after(alloc, steps)?;
    let copy = map.copy()?;
    leaves(alloc, &mut map, &copy, steps)
}

// Whether changes to a copy leave the array.
fn array_stays(alloc: Global, steps: &[Step]) -> Result<bool, AllocError> {
    let map = after(alloc, steps)?;
    let mut copy = map.copy()?;
    leaves(alloc, &mut copy, &map, steps)
}

#[test]
fn leaves_a_copy_as_it_was(rt: HostRuntime) -> Result<(), Fail> {
    for steps in MADE {
        assert!(rt; copy_stays(rt.alloc(), steps)? && array_stays(rt.alloc(), steps)?);
    }
    Ok(())
}

// Whether a value is taken once, with another in its place, from each array.
fn takes(alloc: Global, steps: &[Step]) -> Result<bool, AllocError> {
    let mut map = after(alloc, steps)?;
    let first = map.take(&Key::Int(0), 9);
    let second = map.take(&Key::Int(0), 10);
    let none = map.take(&Key::Int(5), 9);
    Ok(first == Some(1) && second == Some(9) && none == None)
}

#[test]
fn takes_a_value_and_leaves_another(rt: HostRuntime) -> Result<(), Fail> {
    for steps in MADE {
        assert!(rt; takes(rt.alloc(), steps)?);
    }
    Ok(())
}

// The array of the numbers from 0 to 99 at their own keys, in a list or with an index, without the multiples of three.
fn without_thirds(alloc: Global, indexed: bool) -> Result<OrdMap<i64>, AllocError> {
    let mut map = OrdMap::new(alloc);
    if indexed {
        map.set(Key::Int(-1), 0)?;
    }
    for number in 0..100 {
        map.set(Key::Int(number), number)?;
    }
    for number in 0..100 {
        if number % 3 == 0 {
            map.unset(&Key::Int(number));
        }
    }
    Ok(map)
}

// Whether exactly the numbers below 100 that three doesn't divide are found.
fn finds_others(map: &OrdMap<i64>) -> bool {
    for number in 0..120 {
        let there = number < 100 && number % 3 != 0;
        if map.get(&Key::Int(number)).is_some() != there {
            return false;
        }
    }
    true
}

#[test]
fn finds_each_key_past_those_removed(rt: HostRuntime) -> Result<(), Fail> {
    assert!(rt; finds_others(&without_thirds(rt.alloc(), false)?));
    assert!(rt; finds_others(&without_thirds(rt.alloc(), true)?));
    Ok(())
}

// Removes each pair of an odd value while it goes over the pairs by place.
fn remove_odds(alloc: Global, map: &mut OrdMap<i64>) -> Result<(), AllocError> {
    let mut place = 0usize;
    for _ in 0..map.len() {
        let key = match map.at(place) {
            Some((key, value)) if *value % 2 == 1 => key.clone()?,
            _ => {
                place = place.saturating_add(1);
                continue;
            }
        };
        map.unset(&key);
    }
    Ok(())
}

// Whether the steps leave these pairs and this next key, once those of odd values are removed.
fn is_left(
    alloc: Global,
    steps: &[Step],
    pairs: &[(Name, i64)],
    next_key: u64,
) -> Result<bool, AllocError> {
    let mut map = after(alloc, steps)?;
    remove_odds(alloc, &mut map)?;
    Ok(holds(&map, pairs, next_key))
}

static LIST: [Step; 5] = [Append(1), Append(2), Append(3), Append(5), Append(6)];

static INDEXED: [Step; 4] = [Set(Str("k"), 1), Append(2), Set(Int(-4), 3), Append(6)];

#[test]
fn goes_over_pairs_while_some_are_removed(rt: HostRuntime) -> Result<(), Fail> {
    let alloc = rt.alloc();
    assert!(rt; is_left(alloc, &LIST, &[(Int(1), 2), (Int(4), 6)], 5)?);
    assert!(rt; is_left(alloc, &INDEXED, &[(Int(0), 2), (Int(1), 6)], 2)?);
    Ok(())
}

// Whether a value has two owners until one lets go of it.
fn is_owned_at_last(alloc: Global) -> Result<bool, AllocError> {
    let first = Shared::new(alloc, 5)?;
    let second = first.clone()?;
    let seen = *second.get() == 5;
    let first = match first.try_own() {
        Ok(_) => return Ok(false),
        Err(owner) => owner,
    };
    drop(second);
    match first.try_own() {
        Ok(value) => Ok(seen && value == 5),
        Err(_) => Ok(false),
    }
}

#[test]
fn gives_a_shared_value_to_its_last_owner(rt: HostRuntime) -> Result<(), Fail> {
    assert!(rt; is_owned_at_last(rt.alloc())?);
    Ok(())
}
