//! Casts (PHP manual, Type Juggling).
ghost use Rattle.std.specs.Prelude.{◌≡◌, map};
ghost use Rattle.std.specs.Option.{option_map};
ghost use Rattle.hph_ast.specs.Marks.{cast_in, casts};
ghost use Rattle.hph_lex.specs.Casts.{CastOf};
ghost use Rattle.hph_lex.specs.Tables.{row, spelled};

use crate::bytes::{ByteClass, is_word};
use crate::spelled::Spelled;
use crate::spelled::Spelled::{Cast as As, Refused};
use hph_ast::{Cast, Construct};

/// The words of casts in lower case.
static CASTS: [(&[u8], Spelled); 12] = [
    (b"int", As(Cast::Int)),
    (b"integer", As(Cast::Int)),
    (b"bool", As(Cast::Bool)),
    (b"boolean", As(Cast::Bool)),
    (b"string", As(Cast::String)),
    (b"array", As(Cast::Array)),
    (b"float", Refused(Construct::OtherCast)),
    (b"double", Refused(Construct::OtherCast)),
    (b"real", Refused(Construct::OtherCast)),
    (b"object", Refused(Construct::OtherCast)),
    (b"unset", Refused(Construct::OtherCast)),
    (b"binary", Refused(Construct::OtherCast)),
];

/// The cast whose word this is, in any ASCII case.
pub fn cast_word(name: &[u8]) -> Option<Spelled>
    ensures { option_map spelled result ≡ cast_in casts name.now }
{
    cast_in(&CASTS, name)
}

/// The first row of a table whose word this is.
fn cast_in(table: &[(&[u8], Spelled)], name: &[u8]) -> Option<Spelled>
    ensures { option_map spelled result ≡ cast_in (map row table.now) name.now }
{
    for (text, spelled) in table {
        if is_word(text, name) {
            return Some(*spelled);
        }
    }
    None
}

/// The cast that begins with these bytes, and its length with both parentheses: spaces and tabs may stand around its word.
pub fn cast(bytes: &[u8]) -> Option<(Spelled, usize)>
    ensures { CastOf bytes.now result }
{
    let [b'(', inside @ ..] = bytes else {
        return None;
    };
    let (name, behind) = ByteClass::Name.split(ByteClass::Blank.skip(inside));
    match ByteClass::Blank.skip(behind) {
        [b')', rest @ ..] => match cast_word(name) {
            Some(cast) => Some((cast, bytes.len() - rest.len())),
            None => None,
        },
        _ => None,
    }
}
