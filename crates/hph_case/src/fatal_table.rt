ghost use Rattle.std.specs.Prelude.{◌≡◌};
ghost use Rattle.hph_case.specs.Fatals.{fatals};

use crate::cases::{Cases, Row};

/// The one list of the kinds of fatal errors that end a program, with their codes (this project's own). It calls the macro `then` with what is given behind
/// it, in brackets, and the rows `Variant = code;`.
#[macro_export]
macro_rules! fatal_rows {
    ($then:ident $($given:tt)*) => {
        $then! {
            [$($given)*]
            Overflow = 1;
            Float = 2;
            DivZero = 3;
            NegativeShift = 4;
            BadOperand = 5;
            ObjectUse = 6;
            StringIncrement = 7;
            ArrayOrder = 8;
            ObjectCompare = 9;
            IllegalOffset = 10;
            AppendFull = 11;
            StringOffset = 12;
            ScalarWrite = 13;
            TooFewArguments = 14;
            BadArgument = 15;
            UndefinedFunction = 16;
            UndefinedClass = 17;
            UndefinedMethod = 18;
            UndefinedProperty = 19;
            UndefinedConstant = 20;
            Redeclare = 21;
            NotObject = 22;
            Inaccessible = 23;
            StaticCall = 24;
            Misuse = 25;
        }
    };
}

macro_rules! without_tags {
    ([] $($variant:ident = $code:literal;)*) => {
        Cases { rows: [$(Row { code: $code, tag: 0 },)*] }
    };
}

/// The kinds of fatal errors. Each tag is 0.
pub fn fatals() -> Cases<25>
    ensures { result.rows ≡ fatals }
{
    fatal_rows!(without_tags)
}
