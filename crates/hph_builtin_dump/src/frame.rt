//! Arrays that are printed pair by pair.
ghost use Rattle.std.specs.Prelude.{◌≡◌, ◌+◌, ◌<◌, ◌≤◌, length};
ghost use Rattle.hph_value.specs.Shown.{value_of};
ghost use Rattle.hph_builtin_dump.specs.Dumps.{Enters, Advances};

use crate::lines::{put_key, put_line, put_value};
use hph_array::OrdMap;
use hph_equal::array_in;
use hph_value::{Stop, Value};

/// An array whose first line is printed, the depth of that line, and the place of the pair that is printed next.
#[derive(Drop)]
pub struct Frame<'a> {
    pub pairs: &'a OrdMap<Value>,
    pub depth: u64,
    pub at: usize,
}

/// Prints a value, but for the pairs and the end of an array.
pub fn enter<'a>(
    buffer: &mut Vec<u8>,
    depth: u64,
    value: &'a Value,
) -> Result<Option<Frame<'a>>, Stop>
    ensures { Enters result depth (value_of value.now) buffer.old.items buffer.new.items }
{
    match put_value(buffer, depth, value) {
        Err(stop) => Err(stop),
        Ok(()) => match array_in(value) {
            Some(pairs) => Ok(Some(Frame {
                pairs,
                depth,
                at: 0,
            })),
            None => Ok(None),
        },
    }
}

/// The same array at the next pair.
fn behind<'a>(frame: Frame<'a>) -> Frame<'a>
    requires { frame.at < length frame.pairs.now.pairs }
    ensures pairs { result.pairs.now ≡ frame.entry.pairs.now }
    ensures depth { result.depth ≡ frame.entry.depth }
    ensures at { result.at ≡ frame.entry.at + 1 }
{
    let size = frame.pairs.len();
    let at = frame.at;
    prove!(at < size);
    Frame {
        pairs: frame.pairs,
        depth: frame.depth,
        at: at + 1,
    }
}

/// Prints the next pair of the array on top, but for the pairs and the end of an array in it, which is then the one on top;
/// or the end of the array on top, where no pair is left, and then the one that was entered before it is.
pub fn advance<'a>(
    buffer: &mut Vec<u8>,
    top: Frame<'a>,
    frames: &mut Vec<Frame<'a>>,
) -> Result<Option<Frame<'a>>, Stop>
    ensures { Advances result top.entry frames.old.items frames.new.items buffer.old.items buffer.new.items }
{
    let Some((key, value)) = top.pairs.at(top.at) else {
        put_line(buffer, top.depth, b"}", b"", b"")?;
        return Ok(frames.pop());
    };
    let Some(depth) = top.depth.checked_add(2) else {
        return Err(Stop::NoMemory);
    };
    put_key(buffer, depth, key)?;
    match enter(buffer, depth, value) {
        Err(stop) => Err(stop),
        Ok(None) => Ok(Some(behind(top))),
        Ok(Some(inner)) => match frames.push(behind(top)) {
            Ok(()) => Ok(Some(inner)),
            Err(_) => Err(Stop::NoMemory),
        },
    }
}
