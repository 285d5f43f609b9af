use crate::expr::Expr;
use crate::function::{DeclaredType, Function};
use crate::token::{At, Identifier};
use sqlite_items::{Boxed, Items};

/// A class (PHP manual, Classes and Objects).
#[cycle(stmt)]
#[derive(Drop)]
pub struct Class {
    pub at: At,
    pub name: Identifier,
    pub parent: Option<Identifier>,
    pub members: Items<Member>,
}

/// A member of a class.
#[cycle(stmt)]
#[derive(Drop)]
pub enum Member {
    Constants {
        at: At,
        modifiers: Modifiers,
        items: Items<ConstantItem>,
    },
    Properties {
        at: At,
        modifiers: Modifiers,
        ty: Option<DeclaredType>,
        items: Items<PropertyItem>,
    },
    Method {
        at: At,
        modifiers: Modifiers,
        function: Boxed<Function>,
    },
}

/// What stands before a member, in whatever order.
#[derive(Clone, Copy, PartialEq, Eq)]
pub struct Modifiers {
    pub access: Option<Access>,
    pub is_static: bool,
}

/// Who may use a member; `var` is written for a property without another.
#[derive(Clone, Copy, PartialEq, Eq)]
pub enum Access {
    Public,
    Protected,
    Private,
    Var,
}

/// A constant and its value, in a class or in a `const` statement.
#[derive(Drop)]
pub struct ConstantItem {
    pub name: Identifier,
    pub value: Boxed<Expr>,
}

/// A property and its initial value.
#[derive(Drop)]
pub struct PropertyItem {
    pub name: Identifier,
    pub value: Option<Boxed<Expr>>,
}
