ghost use Rattle.std.specs.Prelude.{◌≡◌};
ghost use Rattle.hph_case.specs.Operators.{operators};

use crate::cases::{Cases, Row};

/// The one list of the binary operators of PHP (codes are this project's own). It calls the macro `then` with what is given behind it, in brackets, and the rows
/// `Variant = code, sign;`.
#[macro_export]
macro_rules! binary_operator_rows {
    ($then:ident $($given:tt)*) => {
        $then! {
            [$($given)*]
            Add = 1, "+";
            Sub = 2, "-";
            Mul = 3, "*";
            Div = 4, "/";
            Rem = 5, "%";
            Pow = 6, "**";
            ShiftLeft = 7, "<<";
            ShiftRight = 8, ">>";
            BitAnd = 9, "&";
            BitOr = 10, "|";
            BitXor = 11, "^";
            Concat = 12, ".";
            Less = 13, "<";
            LessEqual = 14, "<=";
            Greater = 15, ">";
            GreaterEqual = 16, ">=";
            Equal = 17, "==";
            NotEqual = 18, "!=";
            Identical = 19, "===";
            NotIdentical = 20, "!==";
            Spaceship = 21, "<=>";
            LogicalXor = 22, "xor";
        }
    };
}

/// The one list of the unary operators and casts of PHP, in the same form.
#[macro_export]
macro_rules! unary_operator_rows {
    ($then:ident $($given:tt)*) => {
        $then! {
            [$($given)*]
            Plus = 1, "+";
            Minus = 2, "-";
            BitNot = 3, "~";
            Not = 4, "!";
            ToInt = 5, "(int)";
            ToBool = 6, "(bool)";
            ToString = 7, "(string)";
            ToArray = 8, "(array)";
        }
    };
}

macro_rules! and_unary_ones {
    ([] $($variant:ident = $code:literal, $sign:literal;)*) => {
        unary_operator_rows!(behind_binary_ones $($code)*)
    };
}

macro_rules! behind_binary_ones {
    ([$($binary:literal)*] $($variant:ident = $code:literal, $sign:literal;)*) => {
        Cases { rows: [$(Row { code: $binary, tag: 2 },)* $(Row { code: 32 + $code, tag: 1 },)*] }
    };
}

/// The operators of PHP, binary ones by their codes and unary ones and casts 32 above theirs. A tag counts the operands.
pub fn operators() -> Cases<30>
    ensures { result.rows ≡ operators }
{
    binary_operator_rows!(and_unary_ones)
}
