use crate::class::{Class, ConstantItem};
use crate::expr::{Expr, Item};
use crate::function::Function;
use crate::token::{At, Identifier};
use sqlite_items::{Boxed, Items};

/// A statement, a variant for each form of the grammar.
#[cycle(stmt)]
#[derive(Drop)]
pub enum Statement {
    Empty {
        at: At,
    },
    InlineText {
        at: At,
        bytes: Items<u8>,
    },
    Block {
        at: At,
        body: Items<Statement>,
    },
    Expression {
        at: At,
        value: Boxed<Expr>,
    },
    Function {
        function: Boxed<Function>,
    },
    Class {
        class: Boxed<Class>,
    },
    If {
        at: At,
        test: Boxed<Expr>,
        body: Boxed<Statement>,
        more: Items<ElseIf>,
        other: Option<Boxed<Statement>>,
    },
    While {
        at: At,
        test: Boxed<Expr>,
        body: Boxed<Statement>,
    },
    DoWhile {
        at: At,
        body: Boxed<Statement>,
        test: Boxed<Expr>,
    },
    For {
        at: At,
        init: Items<Expr>,
        test: Items<Expr>,
        step: Items<Expr>,
        body: Boxed<Statement>,
    },
    Foreach {
        at: At,
        subject: Boxed<Expr>,
        key: Option<Identifier>,
        value: ForeachTarget,
        body: Boxed<Statement>,
    },
    Switch {
        at: At,
        subject: Boxed<Expr>,
        cases: Items<Case>,
    },
    Break {
        at: At,
        levels: Option<u64>,
    },
    Continue {
        at: At,
        levels: Option<u64>,
    },
    Return {
        at: At,
        value: Option<Boxed<Expr>>,
    },
    Echo {
        at: At,
        values: Items<Expr>,
    },
    Global {
        at: At,
        names: Items<Identifier>,
    },
    Static {
        at: At,
        variables: Items<StaticVariable>,
    },
    Unset {
        at: At,
        paths: Items<Expr>,
    },
    Const {
        at: At,
        items: Items<ConstantItem>,
    },
}

/// An `elseif` with its branch.
#[cycle(stmt)]
#[derive(Drop)]
pub struct ElseIf {
    pub test: Boxed<Expr>,
    pub body: Boxed<Statement>,
}

/// A `case`, or `default` where there is no test.
#[cycle(stmt)]
#[derive(Drop)]
pub struct Case {
    pub at: At,
    pub test: Option<Boxed<Expr>>,
    pub body: Items<Statement>,
}

/// What a turn of `foreach` sets to the element. All but a variable is refused.
#[derive(Drop)]
pub enum ForeachTarget {
    Variable { name: Identifier },
    Reference { source: Boxed<Expr>, ampersand: u32 },
    Destructure { bracket: u32, items: Items<Item> },
}

/// A static variable and its initial value.
#[derive(Drop)]
pub struct StaticVariable {
    pub name: Identifier,
    pub value: Option<Boxed<Expr>>,
}
