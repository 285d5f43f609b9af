ghost use Rattle.std.specs.Prelude.{◌≡◌};
ghost use Rattle.hph_case.specs.Builtins.{builtins};

use crate::cases::{Cases, Row};

/// The one list of the functions of PHP that are built in (codes are this project's own). It calls the macro `then` with what is given behind it, in brackets, and the
/// rows `Variant = code, least number of arguments, name;`.
#[macro_export]
macro_rules! builtin_rows {
    ($then:ident $($given:tt)*) => {
        $then! {
            [$($given)*]
            Strlen = 1, 1, "strlen";
            Count = 2, 1, "count";
            Intdiv = 3, 2, "intdiv";
            Abs = 4, 1, "abs";
            Ord = 5, 1, "ord";
            Chr = 6, 1, "chr";
            Substr = 7, 2, "substr";
            Strpos = 8, 2, "strpos";
            StrRepeat = 9, 2, "str_repeat";
            Strrev = 10, 1, "strrev";
            Strtolower = 11, 1, "strtolower";
            Strtoupper = 12, 1, "strtoupper";
            Trim = 13, 1, "trim";
            Implode = 14, 2, "implode";
            Explode = 15, 2, "explode";
            ArrayKeys = 16, 1, "array_keys";
            ArrayValues = 17, 1, "array_values";
            ArrayPush = 18, 1, "array_push";
            ArrayPop = 19, 1, "array_pop";
            InArray = 20, 2, "in_array";
            ArrayKeyExists = 21, 2, "array_key_exists";
            IsInt = 22, 1, "is_int";
            IsString = 23, 1, "is_string";
            IsBool = 24, 1, "is_bool";
            IsArray = 25, 1, "is_array";
            IsNull = 26, 1, "is_null";
            IsObject = 27, 1, "is_object";
            VarDump = 28, 1, "var_dump";
        }
    };
}

macro_rules! by_least_count {
    ([] $($variant:ident = $code:literal, $least:literal, $name:literal;)*) => {
        Cases { rows: [$(Row { code: $code, tag: $least },)*] }
    };
}

/// The functions that are built in. A tag is the least number of arguments.
pub fn builtins() -> Cases<28>
    ensures { result.rows ≡ builtins }
{
    builtin_rows!(by_least_count)
}
