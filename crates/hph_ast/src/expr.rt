use crate::operator::{Assignment, Binary, Prefix};
use crate::token::At;
use sqlite_items::{Boxed, Items};

/// An expression, a variant for each form of the grammar. Parentheses are kept. The forms that are marked as
/// refused are read, so that their refusal can say where they stand, and no accepted tree holds them.
#[cycle(expr)]
#[derive(Drop)]
pub enum Expr {
    Int {
        at: At,
        value: u64,
    },
    Text {
        at: At,
        bytes: Items<u8>,
    },
    Interpolated {
        at: At,
        parts: Items<StringPart>,
    },
    Variable {
        at: At,
        name: Items<u8>,
    },
    Constant {
        at: At,
        name: Items<u8>,
    },
    /// `__DIR__`
    Directory {
        at: At,
    },
    Array {
        at: At,
        form: ArrayForm,
        items: Items<Item>,
    },
    Call {
        at: At,
        name: Items<u8>,
        arguments: Items<Expr>,
    },
    /// A call of an expression. Refused.
    DynamicCall {
        at: At,
        callee: Boxed<Expr>,
        arguments: Items<Expr>,
    },
    StaticCall {
        at: At,
        class: Boxed<ClassReference>,
        name: Boxed<MemberName>,
        arguments: Items<Expr>,
    },
    MethodCall {
        at: At,
        object: Boxed<Expr>,
        name: Boxed<MemberName>,
        arguments: Items<Expr>,
    },
    New {
        at: At,
        class: Boxed<ClassReference>,
        arguments: Items<Expr>,
    },
    ClassConstant {
        at: At,
        class: Boxed<ClassReference>,
        name: Items<u8>,
    },
    /// `C::class`, and the place of its `::`. Refused.
    ClassName {
        at: At,
        class: Boxed<ClassReference>,
        colons: u32,
    },
    StaticProperty {
        at: At,
        class: Boxed<ClassReference>,
        name: Items<u8>,
    },
    Paren {
        at: At,
        inner: Boxed<Expr>,
    },
    Isset {
        at: At,
        paths: Items<Expr>,
    },
    Empty {
        at: At,
        operand: Boxed<Expr>,
    },
    Exit {
        at: At,
    },
    ExitWith {
        at: At,
        operand: Boxed<Expr>,
    },
    /// A base, and one or more steps.
    Path {
        at: At,
        base: Boxed<Expr>,
        steps: Items<Step>,
    },
    Update {
        at: At,
        form: Update,
        path: Boxed<Expr>,
    },
    Prefix {
        at: At,
        operator: Prefix,
        operand: Boxed<Expr>,
    },
    /// `a instanceof B instanceof C`
    InstanceOf {
        at: At,
        subject: Boxed<Expr>,
        classes: Items<ClassReference>,
    },
    /// Operators of one level that group to the left: the first operand, and each operator with the operand after it.
    Run {
        at: At,
        first: Boxed<Expr>,
        more: Items<(Binary, Expr)>,
    },
    /// An operator that groups to the right or not at all.
    Pair {
        at: At,
        operator: Binary,
        left: Boxed<Expr>,
        right: Boxed<Expr>,
    },
    Ternary {
        at: At,
        test: Boxed<Expr>,
        first: Boxed<Expr>,
        second: Boxed<Expr>,
    },
    /// `a ?: b ?: c`
    ShortTernary {
        at: At,
        first: Boxed<Expr>,
        more: Items<Expr>,
    },
    Assign {
        at: At,
        operator: Assignment,
        target: Boxed<Expr>,
        value: Boxed<Expr>,
    },
    /// `a = &b`, and the place of its `&`.
    AssignReference {
        at: At,
        target: Boxed<Expr>,
        source: Boxed<Expr>,
        ampersand: u32,
    },
    /// `[..] = a`. Refused.
    Destructure {
        at: At,
        items: Items<Item>,
        value: Boxed<Expr>,
    },
    /// An argument `name: a`. Refused.
    NamedArgument {
        at: At,
        name: Items<u8>,
        value: Boxed<Expr>,
    },
}

/// `[..]` or `array(..)`; or `[..]` as an element of a destructuring that is no array, which is refused with the whole.
#[derive(Clone, Copy, PartialEq, Eq)]
pub enum ArrayForm {
    Short,
    Long,
    Targets,
}

/// A `++` or `--`, before or after its path.
#[derive(Clone, Copy, PartialEq, Eq)]
pub enum Update {
    PreIncrement,
    PreDecrement,
    PostIncrement,
    PostDecrement,
}

/// A piece of an interpolated string.
#[cycle(expr)]
#[derive(Drop)]
pub enum StringPart {
    Piece { at: At, bytes: Items<u8> },
    Interpolation { value: Boxed<Expr> },
}

/// An element of an array, and with its key. References and holes are refused.
#[cycle(expr)]
#[derive(Drop)]
pub enum Item {
    Plain {
        at: At,
        value: Boxed<Expr>,
    },
    Keyed {
        at: At,
        key: Boxed<Expr>,
        value: Boxed<Expr>,
    },
    Reference {
        at: At,
        value: Boxed<Expr>,
    },
    KeyedReference {
        at: At,
        key: Boxed<Expr>,
        value: Boxed<Expr>,
        ampersand: u32,
    },
    /// Nothing between two commas of a destructuring.
    Hole {
        at: At,
    },
}

/// The class that an expression names. One that an expression gives is refused.
#[cycle(expr)]
#[derive(Drop)]
pub enum ClassReference {
    ByName { at: At, name: Items<u8> },
    SelfClass { at: At },
    Parent { at: At },
    Static { at: At },
    ByExpression { at: At, class: Boxed<Expr> },
}

/// The member that an expression names. One that an expression gives is refused.
#[cycle(expr)]
#[derive(Drop)]
pub enum MemberName {
    Named { name: Items<u8> },
    Computed { name: Boxed<Expr> },
}

/// A step of a path.
#[cycle(expr)]
#[derive(Drop)]
pub enum Step {
    Index { at: At, key: Boxed<Expr> },
    /// `[]`
    Append { at: At },
    /// `->` and a member; behind `new` and `instanceof`, where it is refused, `::` and a variable too.
    Property { at: At, name: Boxed<MemberName> },
}
