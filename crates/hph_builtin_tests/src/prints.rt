//! What is printed, and calls on deep and wide values.
use crate::arguments::ints;
use hph_array::{Bytes, Key, OrdMap};
use hph_builtin::{HostStop, call};
use hph_php::{Builtin, Fatal};
use hph_src::{MemSink, ScriptSink};
use hph_value::Value;
use std::alloc::{AllocError, Global};
use std::slice;
use std::test::Fail;

// An array of one value at an int key.
fn at(alloc: Global, key: i64, value: Value) -> Result<Value, AllocError> {
    let mut map = OrdMap::new(alloc);
    map.set(Key::Int(key), value)?;
    Value::array(alloc, map)
}

// Arrays in one another, so many levels deep.
fn nested(alloc: Global, levels: u32) -> Result<Value, AllocError> {
    let mut value = Value::Null;
    for _ in 0..levels {
        value = at(alloc, 0, value)?;
    }
    Ok(value)
}

// ["k" => value, 5 => "a\"b"]
fn mixed(alloc: Global, value: Value) -> Result<Value, AllocError> {
    let mut map = OrdMap::new(alloc);
    map.set(Key::Str(Bytes::from_slice(alloc, b"k")?), value)?;
    map.set(Key::Int(5), Value::Str(Bytes::from_slice(alloc, b"a\"b")?))?;
    Value::array(alloc, map)
}

fn dumps(alloc: Global, value: &Value, shown: &str) -> bool {
    let mut sink = MemSink::new(alloc);
    let answer = call(alloc, Builtin::VarDump, slice::from_ref(value), &mut sink);
    matches!(&answer, Ok(Value::Null)) && sink.bytes() == shown.as_bytes()
}

#[test]
fn dumps_arrays_in_one_another(rt: HostRuntime) -> Result<(), Fail> {
    let alloc = rt.alloc();
    let value = mixed(alloc, at(alloc, 6, Value::Int(2))?)?;
    assert!(rt;
        dumps(
            alloc,
            &value,
            "array(2) {\n  [\"k\"]=>\n  array(1) {\n    [6]=>\n    int(2)\n  }\n  [5]=>\n  string(3) \"a\"b\"\n}\n"
        )
    );
    assert!(rt; dumps(alloc, &Value::Bool(false), "bool(false)\n"));
    Ok(())
}

#[test]
fn dumps_up_to_an_object(rt: HostRuntime) -> Result<(), Fail> {
    let value = mixed(rt.alloc(), Value::Obj(1))?;
    let mut sink = MemSink::new(rt.alloc());
    let answer = call(
        rt.alloc(),
        Builtin::VarDump,
        slice::from_ref(&value),
        &mut sink,
    );
    assert!(rt; matches!(&answer, Err(HostStop::Fatal(Fatal::ObjectUse))));
    assert!(rt; sink.bytes() == b"array(2) {\n  [\"k\"]=>\n".as_slice());
    Ok(())
}

#[test]
fn fails_with_its_sink(rt: HostRuntime) -> Result<(), Fail> {
    let value = ints(rt.alloc(), &[1, 2])?;
    let mut sink = ScriptSink::new(rt.alloc(), 14);
    let answer = call(
        rt.alloc(),
        Builtin::VarDump,
        slice::from_ref(&value),
        &mut sink,
    );
    assert!(rt; matches!(&answer, Err(HostStop::WriteFault)));
    assert!(rt; sink.bytes() == b"array(2) {\n  [".as_slice());
    Ok(())
}

// The whole dump has some 10^12 bytes, most of them spaces. A sink that takes fewer stops it.
#[test]
fn goes_through_a_million_levels(rt: HostRuntime) -> Result<(), Fail> {
    let alloc = rt.alloc();
    let value = nested(alloc, 1_000_000)?;
    let mut sink = ScriptSink::new(alloc, 50_000_000);
    let answer = call(alloc, Builtin::VarDump, slice::from_ref(&value), &mut sink);
    assert!(rt; matches!(&answer, Err(HostStop::WriteFault)));
    assert!(rt; sink.bytes().len() == 50_000_000);
    Ok(())
}

#[test]
fn compares_a_million_levels(rt: HostRuntime) -> Result<(), Fail> {
    let alloc = rt.alloc();
    let mut args = Vec::new(alloc);
    args.push(nested(alloc, 1_000_000)?)?;
    args.push(at(alloc, 0, nested(alloc, 1_000_000)?)?)?;
    let mut sink = MemSink::new(alloc);
    let answer = call(alloc, Builtin::InArray, &args, &mut sink);
    assert!(rt; matches!(&answer, Ok(Value::Bool(true))));
    Ok(())
}
