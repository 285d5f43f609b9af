//! Rules of the grammar.

ghost use Rattle.hph_cursor.specs.Reads.{Reads};
ghost use Rattle.hph_cursor.specs.Steps.{Parser};

use hph_cursor::{Cursor, ParseFault};

/// A rule of the grammar, which reads a node.
pub trait Rule {
    /// What the rule reads.
    type Node: Drop;

    /// What must hold of it before it reads.
    ghost can_read: { Self → Type 0 };

    /// The rule as a function on lists of tokens.
    ghost grammar: { Self → Parser Self.Node };

    /// The node that comes next.
    fn read(&self, cursor: &mut Cursor<'_>) -> Result<Self::Node, ParseFault>
        requires { can_read self.now }
        ensures { Reads (grammar self.now cursor.old) result cursor.new };
}
