use crate::expr::Expr;
use crate::stmt::Statement;
use crate::token::{At, Identifier};
use sqlite_items::{Boxed, Items};

/// A function, or the function of a method (PHP manual, User-defined functions).
#[cycle(stmt)]
#[derive(Drop)]
pub struct Function {
    pub at: At,
    pub name: Identifier,
    pub params: Items<Param>,
    pub result: Option<DeclaredType>,
    pub body: Items<Statement>,
}

/// A parameter, from its first token up to the end of its default.
#[derive(Drop)]
pub struct Param {
    pub at: At,
    pub ty: Option<DeclaredType>,
    pub by_reference: bool,
    pub name: Identifier,
    pub default: Option<Boxed<Expr>>,
}

/// A declared type: the names between its `|`, and whether a `?` stands before them.
#[derive(Drop)]
pub struct DeclaredType {
    pub at: At,
    pub nullable: bool,
    pub names: Items<TypeName>,
}

/// A name in a declared type.
#[derive(Drop)]
pub enum TypeName {
    Named { name: Identifier },
    Array { start: u32 },
    SelfClass { start: u32 },
    Parent { start: u32 },
}
