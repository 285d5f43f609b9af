use hph_ast::Expr;
use sqlite_items::Boxed;

/// An expression that goes on with a call or a member, or that is whole.
#[derive(Drop)]
pub enum Turn {
    Longer(Boxed<Expr>),
    Whole(Boxed<Expr>),
}
