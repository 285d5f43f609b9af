/// Why no token begins at a place.
#[derive(Clone, Copy, PartialEq, Eq)]
pub enum LexKind {
    UnclosedString,
    UnclosedComment,
    /// A `\u{` without hexadecimal digits and a `}`, or past 10FFFF.
    BadEscape,
    /// Digits that are missing, of a wrong base, or with a misplaced `_`.
    BadNumber,
    BadByte,
}

/// A construct of PHP that is refused: first those that the lexer meets, then those that a first token tells,
/// then those that the tree tells (this project's own list).
#[derive(Clone, Copy, PartialEq, Eq)]
pub enum Construct {
    FloatLiteral,
    Heredoc,
    ShellExec,
    Interpolation,
    Attribute,
    VarVar,
    Namespace,
    NullSafe,
    Variadic,
    OtherCast,
    Eval,
    Generator,
    Closure,
    RefReturn,
    Exceptions,
    TypeKind,
    Declare,
    Goto,
    Match,
    AltSyntax,
    Destructure,
    Clone,
    Halt,
    MagicConstant,
    Superglobal,
    TypeDeclared,
    NamedArgument,
    Dynamic,
    RefElement,
    ClassName,
    MagicMethod,
    IncludePath,
    IncludeExpr,
    IncludeInFunction,
    StaticPlace,
    LibraryName,
    ThisOutside,
    ThisWrite,
    ClassContext,
    BadBreak,
    DuplicateName,
    UnsetProperty,
}

/// A quantity that has a limit.
#[derive(Clone, Copy, PartialEq, Eq)]
pub enum LimitName {
    /// The bytes of one source file: 1048576.
    FileBytes,
    /// The bytes of all source files: 4194304.
    AllBytes,
    /// The files of a program: 4096.
    Files,
    /// The bytes of a module that is read: 67108864.
    ModuleBytes,
}

/// A place of a program that is named by its file's path; the offset counts bytes from 0.
#[derive(Drop)]
pub struct Spot {
    pub file: String,
    pub offset: u32,
}

/// Why a program is refused, in the order in which the tests are made. Files and paths are normalised paths.
#[derive(Drop)]
pub enum Refusal {
    Lex { kind: LexKind, spot: Spot },
    Construct { kind: Construct, spot: Spot },
    TooDeep { spot: Spot },
    Syntax { spot: Spot },
    Missing { path: String },
    Limit { name: LimitName, file: String },
    MixedByRef { first: Spot, second: Spot },
    PrivateShadow { first: Spot, second: Spot },
    RefArgument { spot: Spot },
}
