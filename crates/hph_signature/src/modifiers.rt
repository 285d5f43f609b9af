//! What stands before the members of a class (PHP manual, Visibility and Static Keyword).

ghost use Rattle.std.specs.Prelude.{length, ◌≡◌};
ghost use Rattle.hph_ast.specs.Declarations as grammar;
ghost use Rattle.hph_cursor.specs.Reads.{Reads};
ghost use Rattle.hph_fstmt.specs.Declarations as spec;

use hph_ast::{Access, Keyword, Kind, Modifiers};
use hph_cursor::{Cursor, ParseFault};
use hph_parts::words::is_keyword;

fn access_of(kind: &Kind) -> Option<Access>
    ensures { result ≡ spec.access_of kind.now }
{
    match kind {
        Kind::Keyword(Keyword::Public) => Some(Access::Public),
        Kind::Keyword(Keyword::Protected) => Some(Access::Protected),
        Kind::Keyword(Keyword::Private) => Some(Access::Private),
        Kind::Keyword(Keyword::Var) => Some(Access::Var),
        _ => None,
    }
}

/// Whether there is a modifier.
pub fn has_modifier(modifiers: Modifiers) -> bool
    ensures { result ≡ grammar.has_modifier modifiers }
{
    modifiers.access.is_some() || modifiers.is_static
}

/// All modifiers that follow these, in so many tokens: at most one access, and at most one `static`.
#[tactic(auto, unfolding(hph_fstmt::specs::Declarations::modifiers))]
fn modifiers_behind(
    cursor: &mut Cursor<'_>,
    found: Modifiers,
    left: usize,
) -> Result<Modifiers, ParseFault>
    requires { left ≡ length cursor.old }
    ensures { Reads (spec.modifiers found cursor.old) result cursor.new }
{
    let [token, ..] = cursor.rest() else {
        return Ok(found);
    };
    match access_of(&token.kind) {
        Some(access) => {
            if found.access.is_some() {
                return Err(cursor.refuse());
            }
            cursor.take()?;
            modifiers_behind(
                cursor,
                Modifiers {
                    access: Some(access),
                    is_static: found.is_static,
                },
                left - 1,
            )
        }
        None => {
            if !is_keyword(Keyword::Static, &token.kind) {
                return Ok(found);
            }
            if found.is_static {
                return Err(cursor.refuse());
            }
            cursor.take()?;
            modifiers_behind(
                cursor,
                Modifiers {
                    access: found.access,
                    is_static: true,
                },
                left - 1,
            )
        }
    }
}

/// The modifiers of a member.
pub fn modifiers(cursor: &mut Cursor<'_>) -> Result<Modifiers, ParseFault>
    ensures { Reads (spec.modifiers grammar.no_modifiers cursor.old) result cursor.new }
{
    let left = cursor.left();
    modifiers_behind(
        cursor,
        Modifiers {
            access: None,
            is_static: false,
        },
        left,
    )
}
