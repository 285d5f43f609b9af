//! Parameters of functions (PHP manual, Function parameters and arguments).

ghost use Rattle.std.specs.Prelude.{[], length};
ghost use Rattle.hph_cursor.specs.Reads.{Reads};
ghost use Rattle.hph_fstmt.specs.Declarations as declarations;
ghost use Rattle.hph_fstmt.specs.Parser as spec;

use crate::types::{maybe_reference, maybe_type};
use hph_ast::{At, Mark, Param};
use hph_cursor::{Cursor, ParseFault, span};
use hph_parts::words::{here, identifier_place, variable};
use hph_parts::{Expressions, Parts};
use sqlite_items::Items;

/// A parameter that begins at a place.
#[tactic(auto, unfolding(hph_fstmt::specs::Declarations::param_from))]
fn param_from<E: Expressions>(
    parts: &Parts<E>,
    cursor: &mut Cursor<'_>,
    at: At,
) -> Result<Param, ParseFault>
    ensures { Reads (declarations.param_from spec.expressions at cursor.old) result cursor.new }
{
    let ty = maybe_type(parts.alloc, cursor)?;
    let by_reference = maybe_reference(cursor)?;
    let name = variable(parts.alloc, cursor)?;
    let (default, last) = parts.initial(cursor, identifier_place(&name))?;
    Ok(Param {
        at: span(at, last),
        ty,
        by_reference,
        name,
        default,
    })
}

#[tactic(auto, unfolding(hph_fstmt::specs::Declarations::param))]
fn param<E: Expressions>(parts: &Parts<E>, cursor: &mut Cursor<'_>) -> Result<Param, ParseFault>
    ensures { Reads (declarations.param spec.expressions cursor.old) result cursor.new }
{
    let at = here(cursor)?;
    param_from(parts, cursor, at)
}

/// Parameters behind `(`, up to the `)`.
pub fn parameters<E: Expressions>(
    parts: &Parts<E>,
    cursor: &mut Cursor<'_>,
) -> Result<Items<Param>, ParseFault>
    ensures { Reads (declarations.params_from spec.expressions (length cursor.old) [] cursor.old) result cursor.new }
{
    let mut found = Items::new(parts.alloc);
    for _turn in 0..cursor.left() {
        if cursor.sees(Mark::CloseParen) {
            cursor.take()?;
            return Ok(found);
        }
        found.push(param(parts, cursor)?)?;
        if !cursor.sees(Mark::Comma) {
            cursor.expect(Mark::CloseParen)?;
            return Ok(found);
        }
        cursor.take()?;
    }
    Err(cursor.refuse())
}
