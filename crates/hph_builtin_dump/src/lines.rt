//! Lines behind as many spaces as their depth says, put last into a buffer.
ghost use Rattle.std.specs.Prelude.{◌≡◌, ◌++◌, OnOk, replicate, codes};
ghost use Rattle.hph_php.specs.Values.{Str};
ghost use Rattle.hph_php.specs.VarDump.{line, key_line};
ghost use Rattle.hph_value.specs.Shown.{value_of};
ghost use Rattle.hph_builtin_dump.specs.Dumps.{first_line, Says};

use hph_array::Key;
use hph_php::Fatal;
use hph_value::{Stop, Value};
use itoa::Buffer;
use std::alloc::AllocError;

/// Puts three pieces last.
fn put(buffer: &mut Vec<u8>, front: &[u8], middle: &[u8], back: &[u8]) -> Result<(), AllocError>
    ensures { OnOk result (buffer.new.items ≡ buffer.old.items ++ (front.now ++ middle.now ++ back.now)) }
{
    buffer.extend_from_slice(front)?;
    buffer.extend_from_slice(middle)?;
    buffer.extend_from_slice(back)
}

/// Puts spaces last.
fn indent(buffer: &mut Vec<u8>, depth: u64) -> Result<(), AllocError>
    ensures { OnOk result (buffer.new.items ≡ buffer.old.items ++ replicate depth 32) }
{
    let Some(size) = (buffer.len() as u64).checked_add(depth) else {
        return Err(AllocError);
    };
    buffer.resize(size as usize, b' ')
}

/// Puts a line of three pieces last.
pub fn put_line(
    buffer: &mut Vec<u8>,
    depth: u64,
    front: &[u8],
    middle: &[u8],
    back: &[u8],
) -> Result<(), AllocError>
    ensures { OnOk result (buffer.new.items ≡ buffer.old.items ++ (line depth (front.now ++ middle.now ++ back.now)).text) }
{
    indent(buffer, depth)?;
    put(buffer, front, middle, back)?;
    buffer.push(b'\n')?;
    Ok(())
}

/// Puts the line of a string last.
fn put_string(buffer: &mut Vec<u8>, depth: u64, bytes: &[u8]) -> Result<(), AllocError>
    ensures { OnOk result (buffer.new.items ≡ buffer.old.items ++ (first_line depth (Str bytes.now)).text) }
{
    let mut digits = Buffer::new();
    indent(buffer, depth)?;
    put(
        buffer,
        b"string(",
        digits.format(bytes.len()).as_bytes(),
        b") \"",
    )?;
    put(buffer, bytes, b"\"", b"\n")
}

/// Puts the line of a key last.
pub fn put_key(buffer: &mut Vec<u8>, depth: u64, key: &Key) -> Result<(), AllocError>
    ensures { OnOk result (buffer.new.items ≡ buffer.old.items ++ (line depth (key_line key.now)).text) }
{
    match key {
        Key::Int(number) => {
            let mut digits = Buffer::new();
            put_line(
                buffer,
                depth,
                b"[",
                digits.format(*number).as_bytes(),
                b"]=>",
            )
        }
        Key::Str(bytes) => put_line(buffer, depth, b"[\"", bytes.as_slice(), b"\"]=>"),
    }
}

/// Puts the first line of a value last, which is its only one where it is no array. `ObjectUse` for an object.
pub fn put_value(buffer: &mut Vec<u8>, depth: u64, value: &Value) -> Result<(), Stop>
    ensures { Says result (first_line depth (value_of value.now)) buffer.old.items buffer.new.items }
{
    match value {
        Value::Null => Ok(put_line(buffer, depth, b"NULL", b"", b"")?),
        Value::Bool(true) => Ok(put_line(buffer, depth, b"bool(true)", b"", b"")?),
        Value::Bool(false) => Ok(put_line(buffer, depth, b"bool(false)", b"", b"")?),
        Value::Int(number) => {
            let mut digits = Buffer::new();
            Ok(put_line(
                buffer,
                depth,
                b"int(",
                digits.format(*number).as_bytes(),
                b")",
            )?)
        }
        Value::Str(bytes) => Ok(put_string(buffer, depth, bytes.as_slice())?),
        Value::Arr(elements) => {
            let mut digits = Buffer::new();
            let size = elements.get().map.len();
            Ok(put_line(
                buffer,
                depth,
                b"array(",
                digits.format(size).as_bytes(),
                b") {",
            )?)
        }
        Value::Obj(_) => Err(Stop::Fatal(Fatal::ObjectUse)),
    }
}
