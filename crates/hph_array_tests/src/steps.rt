//! Steps on arrays, and what an array holds after them.
use hph_array::{AppendFault, Bytes, Key, OrdMap};
use std::alloc::{AllocError, Global};

pub enum Name {
    Int(i64),
    Str(&'static str),
}

pub enum Step {
    Set(Name, i64),
    Append(i64),
    AppendRefused,
    Unset(Name),
    Pop,
}

/// Steps that begin with an empty array, and its pairs and next key after them.
pub struct Sequence {
    pub steps: &'static [Step],
    pub pairs: &'static [(Name, i64)],
    pub next_key: u64,
}

fn key_of(alloc: Global, name: &Name) -> Result<Key, AllocError> {
    match name {
        Name::Int(number) => Ok(Key::Int(*number)),
        Name::Str(text) => Ok(Key::Str(Bytes::from_slice(alloc, text.as_bytes())?)),
    }
}

// Whether a key is there exactly if it can be unset.
fn unset(alloc: Global, map: &mut OrdMap<i64>, name: &Name) -> Result<bool, AllocError> {
    let key = key_of(alloc, name)?;
    let there = map.get(&key).is_some();
    Ok(map.unset(&key) == there)
}

// Takes a step, and says whether the array answered as it should.
fn take_step(alloc: Global, map: &mut OrdMap<i64>, step: &Step) -> Result<bool, AllocError> {
    match step {
        Step::Set(name, value) => map.set(key_of(alloc, name)?, *value).map(|_| true),
        Step::Append(value) => Ok(map.append(*value).is_ok()),
        Step::AppendRefused => Ok(matches!(map.append(0), Err(AppendFault::Full))),
        Step::Unset(name) => unset(alloc, map, name),
        Step::Pop => {
            let empty = map.is_empty();
            Ok(map.pop().is_none() == empty)
        }
    }
}

/// Takes steps, and says whether the array answered each as it should.
pub fn take_steps(
    alloc: Global,
    map: &mut OrdMap<i64>,
    steps: &[Step],
) -> Result<bool, AllocError> {
    let mut answered = true;
    for step in steps {
        answered = take_step(alloc, map, step)? && answered;
    }
    Ok(answered)
}

fn is_named(key: &Key, name: &Name) -> bool {
    match (key, name) {
        (Key::Int(number), Name::Int(other)) => *number == *other,
        (Key::Str(bytes), Name::Str(text)) => bytes.as_slice() == text.as_bytes(),
        _ => false,
    }
}

// Whether the pair at a place is this one, and is found by its key.
fn has_pair(map: &OrdMap<i64>, place: usize, pair: &(Name, i64)) -> bool {
    let Some((key, value)) = map.at(place) else {
        return false;
    };
    is_named(key, &pair.0) && *value == pair.1 && map.get(key).copied() == Some(pair.1)
}

/// Whether an array has these pairs in their order, each found by its key, and this next key.
pub fn holds(map: &OrdMap<i64>, pairs: &[(Name, i64)], next_key: u64) -> bool {
    for (place, pair) in pairs.iter().enumerate() {
        if !has_pair(map, place, pair) {
            return false;
        }
    }
    map.len() == pairs.len() && map.next_key() == next_key
}
