ghost use Rattle.std.specs.Prelude.{◌≡◌};
ghost use Rattle.hph_enclosed.specs.Nests.{passes};

use hph_ast::Expr;
use hph_cursor::{is_path, is_written};

/// What a path in a list of paths is to be: any path, or one that may be written.
#[derive(Clone, Copy, Debug, PartialEq, Eq)]
pub enum PathTest {
    AnyPath,
    WrittenPath,
}

impl PathTest {
    /// Whether an expression is such a path.
    pub fn passes(self, expr: &Expr) -> bool
        ensures { result ≡ passes self expr.now }
    {
        match self {
            PathTest::AnyPath => is_path(expr),
            PathTest::WrittenPath => is_written(expr),
        }
    }
}
