use hph_array::{Bytes, Key, OrdMap};
use hph_binary::binary;
use hph_equal::{loose_eq, strict_eq};
use hph_php::{BinOp, Fatal};
use hph_value::{Stop, Value};
use std::alloc::{AllocError, Global};
use std::test::Fail;

fn text(alloc: Global, bytes: &[u8]) -> Result<Value, AllocError> {
    Ok(Value::Str(Bytes::from_slice(alloc, bytes)?))
}

// Arrays in one another, so many levels deep, round a value. Each has another pair behind the array in it if `wide`.
fn nested(alloc: Global, levels: u32, wide: bool, last: i64) -> Result<Value, AllocError> {
    let mut value = Value::Int(last);
    for _ in 0..levels {
        let mut map = OrdMap::new(alloc);
        map.set(Key::Int(0), value)?;
        if wide {
            map.set(Key::Int(1), Value::Null)?;
        }
        value = Value::array(alloc, map)?;
    }
    Ok(value)
}

#[test]
fn compares_a_million_levels(rt: HostRuntime) -> Result<(), Fail> {
    let x = nested(rt.alloc(), 1_000_000, false, 1)?;
    let y = nested(rt.alloc(), 1_000_000, false, 1)?;
    let z = nested(rt.alloc(), 1_000_000, false, 2)?;
    assert!(rt; loose_eq(rt.alloc(), &x, &y) == Ok(true));
    assert!(rt; strict_eq(rt.alloc(), &x, &y) == Ok(true));
    assert!(rt; loose_eq(rt.alloc(), &x, &z) == Ok(false));
    assert!(rt; strict_eq(rt.alloc(), &x, &z) == Ok(false));
    Ok(())
}

#[test]
fn compares_wide_levels(rt: HostRuntime) -> Result<(), Fail> {
    let x = nested(rt.alloc(), 100_000, true, 1)?;
    let y = nested(rt.alloc(), 100_000, true, 1)?;
    assert!(rt; loose_eq(rt.alloc(), &x, &y) == Ok(true));
    assert!(rt; strict_eq(rt.alloc(), &x, &y) == Ok(true));
    Ok(())
}

#[test]
fn compares_strings_as_numbers_where_both_are(rt: HostRuntime) -> Result<(), Fail> {
    let ten = text(rt.alloc(), b"10")?;
    let spaced = text(rt.alloc(), b" 10")?;
    let float = text(rt.alloc(), b"1e1")?;
    let word = text(rt.alloc(), b"abc")?;
    assert!(rt; loose_eq(rt.alloc(), &ten, &spaced) == Ok(true));
    assert!(rt; strict_eq(rt.alloc(), &ten, &spaced) == Ok(false));
    assert!(rt; loose_eq(rt.alloc(), &ten, &float) == Err(Stop::Fatal(Fatal::Float)));
    assert!(rt; strict_eq(rt.alloc(), &ten, &float) == Ok(false));
    assert!(rt; loose_eq(rt.alloc(), &word, &Value::Int(0)) == Ok(false));
    Ok(())
}

#[test]
fn compares_arrays_in_any_order_or_in_one(rt: HostRuntime) -> Result<(), Fail> {
    let letter = Key::Str(Bytes::from_slice(rt.alloc(), b"a")?);
    let mut first = OrdMap::new(rt.alloc());
    first.set(Key::Int(0), Value::Int(1))?;
    first.set(letter.clone()?, Value::Int(2))?;
    let mut second = OrdMap::new(rt.alloc());
    second.set(letter, Value::Int(2))?;
    second.set(Key::Int(0), Value::Int(1))?;
    let x = Value::array(rt.alloc(), first)?;
    let y = Value::array(rt.alloc(), second)?;
    assert!(rt; loose_eq(rt.alloc(), &x, &y) == Ok(true));
    assert!(rt; strict_eq(rt.alloc(), &x, &y) == Ok(false));
    assert!(rt; strict_eq(rt.alloc(), &x, &x) == Ok(true));
    assert!(rt; loose_eq(rt.alloc(), &x, &Value::Bool(true)) == Ok(true));
    Ok(())
}

#[test]
fn compares_objects_with_themselves_alone(rt: HostRuntime) -> Result<(), Fail> {
    let (x, y) = (Value::Obj(3), Value::Obj(4));
    assert!(rt; loose_eq(rt.alloc(), &x, &x) == Ok(true));
    assert!(rt; strict_eq(rt.alloc(), &x, &y) == Ok(false));
    assert!(rt; loose_eq(rt.alloc(), &x, &y) == Err(Stop::Fatal(Fatal::ObjectCompare)));
    assert!(rt; loose_eq(rt.alloc(), &x, &Value::Null) == Ok(false));
    Ok(())
}

fn int(answer: Result<Value, Stop>) -> Result<i64, Stop> {
    let value = answer?;
    match &value {
        Value::Int(number) => Ok(*number),
        _ => Err(Stop::Fatal(Fatal::BadOperand)),
    }
}

#[test]
fn answers_operators_by_their_codes(rt: HostRuntime) -> Result<(), Fail> {
    let five = text(rt.alloc(), b"5")?;
    let three = Value::Int(3);
    let alloc = rt.alloc();
    assert!(rt; int(binary(alloc, BinOp::Add, &five, &three)) == Ok(8));
    assert!(rt; int(binary(alloc, BinOp::BitAnd, &five, &three)) == Ok(1));
    assert!(rt; int(binary(alloc, BinOp::Spaceship, &three, &five)) == Ok(-1));
    assert!(rt;
        int(binary(alloc, BinOp::Rem, &five, &Value::Int(0))) == Err(Stop::Fatal(Fatal::DivZero))
    );
    let refused = binary(alloc, BinOp::BitOr, &five, &five);
    assert!(rt; matches!(&refused, Err(Stop::Fatal(Fatal::BadOperand))));
    let same = binary(alloc, BinOp::NotEqual, &five, &Value::Int(5));
    assert!(rt; matches!(&same, Ok(Value::Bool(false))));
    Ok(())
}
