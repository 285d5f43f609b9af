//! The names of faults and constructs, as lines show them.
ghost use Rattle.std.specs.Prelude.{◌≡◌};
ghost use Rattle.hph_drive.specs.Names as names;

use hph_ast::{Construct, LexKind};

/// The name of a fault of the text.
pub fn lex_name(kind: LexKind) -> &'static str
    ensures { result.now ≡ names.lex_name kind }
{
    match kind {
        LexKind::UnclosedString => "UnclosedString",
        LexKind::UnclosedComment => "UnclosedComment",
        LexKind::BadEscape => "BadEscape",
        LexKind::BadNumber => "BadNumber",
        LexKind::BadByte => "BadByte",
    }
}

/// The name of a refused construct.
pub fn construct_name(which: Construct) -> &'static str
    ensures { result.now ≡ names.construct_name which }
{
    match which {
        Construct::FloatLiteral => "FloatLiteral",
        Construct::Heredoc => "Heredoc",
        Construct::ShellExec => "ShellExec",
        Construct::Interpolation => "Interpolation",
        Construct::Attribute => "Attribute",
        Construct::VarVar => "VarVar",
        Construct::Namespace => "Namespace",
        Construct::NullSafe => "NullSafe",
        Construct::Variadic => "Variadic",
        Construct::OtherCast => "OtherCast",
        Construct::Eval => "Eval",
        Construct::Generator => "Generator",
        Construct::Closure => "Closure",
        Construct::RefReturn => "RefReturn",
        Construct::Exceptions => "Exceptions",
        Construct::TypeKind => "TypeKind",
        Construct::Declare => "Declare",
        Construct::Goto => "Goto",
        Construct::Match => "Match",
        Construct::AltSyntax => "AltSyntax",
        Construct::Destructure => "Destructure",
        Construct::Clone => "Clone",
        Construct::Halt => "Halt",
        Construct::MagicConstant => "MagicConstant",
        Construct::Superglobal => "Superglobal",
        Construct::TypeDeclared => "TypeDeclared",
        Construct::NamedArgument => "NamedArgument",
        Construct::Dynamic => "Dynamic",
        Construct::RefElement => "RefElement",
        Construct::ClassName => "ClassName",
        Construct::MagicMethod => "MagicMethod",
        Construct::IncludePath => "IncludePath",
        Construct::IncludeExpr => "IncludeExpr",
        Construct::IncludeInFunction => "IncludeInFunction",
        Construct::StaticPlace => "StaticPlace",
        Construct::LibraryName => "LibraryName",
        Construct::ThisOutside => "ThisOutside",
        Construct::ThisWrite => "ThisWrite",
        Construct::ClassContext => "ClassContext",
        Construct::BadBreak => "BadBreak",
        Construct::DuplicateName => "DuplicateName",
        Construct::UnsetProperty => "UnsetProperty",
    }
}
