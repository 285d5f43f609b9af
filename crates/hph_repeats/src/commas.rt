//! Lists with commas between.

ghost use Rattle.hph_cursor.specs.Reads.{ReadsAs};
ghost use Rattle.hph_fstmt.specs.Repeats as repeats;

use crate::rules::Rule;
use hph_ast::{Mark, Token};
use hph_cursor::{Cursor, ParseFault};
use sqlite_items::Items;
use std::alloc::Global;

/// One node or more with commas between, up to a mark, and the token that closes.
pub fn separated<'a, R: Rule>(
    alloc: Global,
    rule: &R,
    cursor: &mut Cursor<'a>,
    closing: Mark,
) -> Result<(Items<R::Node>, &'a Token), ParseFault>
    requires { R.can_read rule.now }
    ensures { ReadsAs (λ r. (r.0, r.1.now)) (repeats.separated (R.grammar rule.now) closing cursor.old) result cursor.new }
{
    let mut found = Items::new(alloc);
    for _turn in 0..cursor.left() {
        found.push(rule.read(cursor)?)?;
        if !cursor.sees(Mark::Comma) {
            let close = cursor.expect(closing)?;
            return Ok((found, close));
        }
        cursor.take()?;
    }
    Err(cursor.refuse())
}
