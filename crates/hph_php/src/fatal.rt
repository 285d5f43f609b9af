ghost use Rattle.std.specs.Prelude.{◌≡◌, IfSome, Some};
ghost use Rattle.hph_php.specs.declared.fatal.Fatal.{Fatal};
ghost use Rattle.hph_php.specs.Codes.{fatal_code, fatal_name, all_fatals, fatal_with};

use hph_case::fatal_rows;

/// A kind of fatal error, which ends a program. The kinds are this project's own; where PHP has an exception or an error
/// of its own for one, it is named.
#[derive(Clone, Copy, Debug, PartialEq, Eq)]
pub enum Fatal {
    /// A whole number past 64 bits, for which PHP has a float or an ArithmeticError.
    Overflow,
    /// A number that is no whole number, for which PHP has a float.
    Float,
    /// A division by 0 (DivisionByZeroError).
    DivZero,
    /// A shift by a negative count (ArithmeticError).
    NegativeShift,
    /// An operand that is no number (TypeError).
    BadOperand,
    /// An object where a text, an int, an array or an index is needed.
    ObjectUse,
    /// `++` or `--` of a string that is no whole number.
    StringIncrement,
    /// An order between two arrays.
    ArrayOrder,
    /// A comparison of an object with anything but itself, null and a bool.
    ObjectCompare,
    /// An array or an object as a key (TypeError).
    IllegalOffset,
    /// No key is left behind the greatest int (Error).
    AppendFull,
    /// A string whose index is no int, or into which is written.
    StringOffset,
    /// An index of an int or of true, into which is written (Error).
    ScalarWrite,
    /// A call with fewer arguments than the function requires (ArgumentCountError).
    TooFewArguments,
    /// An argument that a built-in function doesn't take (TypeError, ValueError, ArgumentCountError).
    BadArgument,
    /// A call of a function that isn't declared (Error).
    UndefinedFunction,
    /// A class that isn't declared (Error).
    UndefinedClass,
    /// A call of a method that the class hasn't (Error).
    UndefinedMethod,
    /// A property that the class hasn't (Error).
    UndefinedProperty,
    /// A constant that isn't there (Error).
    UndefinedConstant,
    /// A function or a class of a name that is taken (a fatal error).
    Redeclare,
    /// A method or a property of a value that is no object (Error).
    NotObject,
    /// A member that can't be seen from the class where it is named (Error).
    Inaccessible,
    /// A call of a method without the object that it needs (Error).
    StaticCall,
    /// A wrong use of an import by a foreign module. No program gives it.
    Misuse,
}

macro_rules! variants {
    ([] $($variant:ident = $code:literal;)*) => {
        [$(Fatal::$variant,)*]
    };
}

macro_rules! code_of {
    ([$($kind:tt)*] $($variant:ident = $code:literal;)*) => {
        match $($kind)* {
            $(Fatal::$variant => $code,)*
        }
    };
}

macro_rules! name_of {
    ([$($kind:tt)*] $($variant:ident = $code:literal;)*) => {
        match $($kind)* {
            $(Fatal::$variant => stringify!($variant),)*
        }
    };
}

impl Fatal {
    /// All kinds of fatal errors, in the order of their codes.
    #[tactic(auto, unfolding(crate::specs::Codes::all_fatals))]
    pub fn all() -> [Fatal; 25]
        ensures { result ≡ all_fatals }
    {
        fatal_rows!(variants)
    }

    /// The code of the kind, this project's own.
    #[tactic(auto, using(crate::proofs::CodeLaws::fatal_inverse))]
    pub fn code(self) -> u32
        ensures value { result ≡ fatal_code self }
        ensures inverse { fatal_with (fatal_code self) ≡ Some self }
    {
        fatal_rows!(code_of self)
    }

    /// The one of this code, or None where there is none.
    pub fn from_code(code: u32) -> Option<Fatal>
        ensures value { result ≡ fatal_with code }
        ensures inverse { IfSome result (λ found. fatal_code found ≡ code) }
    {
        let all = Fatal::all();
        all.iter().copied().find(|found| found.code() == code)
    }

    /// The name of the kind.
    pub fn name(self) -> &'static str
        ensures { result.now ≡ fatal_name self }
    {
        fatal_rows!(name_of self)
    }
}
