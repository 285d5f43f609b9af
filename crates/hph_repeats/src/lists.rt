//! Lists without marks between.

ghost use Rattle.std.specs.Prelude.{◌≡◌, Bool};
ghost use Rattle.hph_ast.specs.declared.token.Kind.{Kind};
ghost use Rattle.hph_cursor.specs.Reads.{Reads};
ghost use Rattle.hph_fstmt.specs.Repeats as repeats;

use crate::rules::Rule;
use hph_cursor::{Cursor, ParseFault};
use sqlite_items::Items;
use std::alloc::Global;

/// A rule whose nodes stand one behind the other, up to a token that ends their list.
pub trait Ends: Rule {
    /// The tokens that end the list.
    ghost ends: { Kind → Bool };

    /// Whether the list ends here, at such a token or behind the last one.
    fn at_end(&self, cursor: &Cursor<'_>) -> bool
        ensures { result ≡ repeats.at_end ends cursor.now };
}

/// Any number of nodes, up to what ends them.
pub fn many<R: Ends>(
    alloc: Global,
    rule: &R,
    cursor: &mut Cursor<'_>,
) -> Result<Items<R::Node>, ParseFault>
    requires { R.can_read rule.now }
    ensures { Reads (repeats.many R.ends (R.grammar rule.now) cursor.old) result cursor.new }
{
    let mut found = Items::new(alloc);
    for _turn in 0..cursor.left() {
        if rule.at_end(cursor) {
            return Ok(found);
        }
        found.push(rule.read(cursor)?)?;
    }
    if !rule.at_end(cursor) {
        return Err(cursor.refuse());
    }
    Ok(found)
}
