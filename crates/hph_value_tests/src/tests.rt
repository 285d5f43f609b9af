use hph_array::{Bytes, Key, OrdMap};
use hph_ops::{difference, incremented, order, product, quotient, sum};
use hph_php::Fatal;
use hph_value::{Value, to_bool, to_key};
use std::alloc::{AllocError, Global};
use std::cmp::Ordering;
use std::test::Fail;

fn text(alloc: Global, bytes: &[u8]) -> Result<Value, AllocError> {
    Ok(Value::Str(Bytes::from_slice(alloc, bytes)?))
}

// Arrays in one another, so many levels deep.
fn nested(alloc: Global, levels: u32) -> Result<Value, AllocError> {
    let mut value = Value::Null;
    for _ in 0..levels {
        let mut map = OrdMap::new(alloc);
        map.set(Key::Int(0), value)?;
        value = Value::array(alloc, map)?;
    }
    Ok(value)
}

#[test]
fn lets_go_of_a_million_levels(rt: HostRuntime) -> Result<(), Fail> {
    let value = nested(rt.alloc(), 1_000_000)?;
    assert!(rt; to_bool(&value));
    Ok(())
}

#[test]
fn computes_with_whole_numbers_alone(rt: HostRuntime) -> Result<(), Fail> {
    let (seven, two) = (Value::Int(7), Value::Int(2));
    assert!(rt; sum(&seven, &Value::Bool(true)) == Ok(8));
    assert!(rt; difference(&Value::Null, &seven) == Ok(-7));
    assert!(rt; quotient(&seven, &two) == Err(Fatal::Float));
    assert!(rt; product(&Value::Int(i64::MIN), &Value::Int(-1)) == Err(Fatal::Overflow));
    let one = incremented(&Value::Null);
    assert!(rt; matches!(&one, Ok(Value::Int(1))));
    Ok(())
}

#[test]
fn orders_strings_as_numbers_where_both_are(rt: HostRuntime) -> Result<(), Fail> {
    let ten = text(rt.alloc(), b"10")?;
    let nine = text(rt.alloc(), b"9 ")?;
    assert!(rt; order(&nine, &ten) == Ok(Ordering::Less));
    assert!(rt; order(&nine, &Value::Int(9)) == Ok(Ordering::Equal));
    Ok(())
}

#[test]
fn keeps_a_leading_zero_in_a_key(rt: HostRuntime) -> Result<(), Fail> {
    let spelled = text(rt.alloc(), b"08")?;
    assert!(rt; matches!(to_key(rt.alloc(), &spelled), Ok(Key::Str(_))));
    Ok(())
}
