//! Arguments of calls, as tables have them.
use hph_array::{Bytes, OrdMap};
use hph_value::{Value, to_key};
use std::alloc::{AllocError, Global};

/// An argument of a call.
pub enum Arg {
    Null,
    Bool(bool),
    Int(i64),
    Text(&'static str),
    /// A list of ints.
    Ints(&'static [i64]),
    /// A list of strings.
    Texts(&'static [&'static str]),
    /// An array of the numbers of these keys, at the keys.
    Keys(&'static [Arg]),
    Object,
    /// A list of one object.
    Objects,
}

fn text(alloc: Global, text: &str) -> Result<Value, AllocError> {
    Ok(Value::Str(Bytes::from_slice(alloc, text.as_bytes())?))
}

/// The list of these ints.
pub fn ints(alloc: Global, numbers: &[i64]) -> Result<Value, AllocError> {
    let mut list = OrdMap::new(alloc);
    for number in numbers {
        if list.append(Value::Int(*number)).is_err() {
            return Err(AllocError);
        }
    }
    Value::array(alloc, list)
}

fn texts(alloc: Global, texts: &[&str]) -> Result<Value, AllocError> {
    let mut list = OrdMap::new(alloc);
    for bytes in texts {
        if list.append(text(alloc, bytes)?).is_err() {
            return Err(AllocError);
        }
    }
    Value::array(alloc, list)
}

fn objects(alloc: Global) -> Result<Value, AllocError> {
    let mut list = OrdMap::new(alloc);
    if list.append(Value::Obj(7)).is_err() {
        return Err(AllocError);
    }
    Value::array(alloc, list)
}

// What stands at a key of its own; arrays are no keys.
fn plain(alloc: Global, arg: &Arg) -> Result<Value, AllocError> {
    match arg {
        Arg::Bool(truth) => Ok(Value::Bool(*truth)),
        Arg::Int(number) => Ok(Value::Int(*number)),
        Arg::Text(bytes) => text(alloc, bytes),
        _ => Ok(Value::Null),
    }
}

fn keyed(alloc: Global, keys: &[Arg]) -> Result<Value, AllocError> {
    let mut map = OrdMap::new(alloc);
    for (index, key) in keys.iter().enumerate() {
        let Ok(key) = to_key(alloc, &plain(alloc, key)?) else {
            return Err(AllocError);
        };
        map.set(key, Value::Int(index as i64))?;
    }
    Value::array(alloc, map)
}

fn value(alloc: Global, arg: &Arg) -> Result<Value, AllocError> {
    match arg {
        Arg::Null => Ok(Value::Null),
        Arg::Bool(truth) => Ok(Value::Bool(*truth)),
        Arg::Int(number) => Ok(Value::Int(*number)),
        Arg::Text(bytes) => text(alloc, bytes),
        Arg::Ints(numbers) => ints(alloc, numbers),
        Arg::Texts(bytes) => texts(alloc, bytes),
        Arg::Keys(keys) => keyed(alloc, keys),
        Arg::Object => Ok(Value::Obj(7)),
        Arg::Objects => objects(alloc),
    }
}

/// The values of arguments.
pub fn values(alloc: Global, args: &[Arg]) -> Result<Vec<Value>, AllocError> {
    let mut values = Vec::new(alloc);
    for arg in args {
        values.push(value(alloc, arg)?)?;
    }
    Ok(values)
}
