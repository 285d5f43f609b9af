//! How many arguments a call has.
ghost use Rattle.std.specs.Prelude.{◌≡◌};
ghost use Rattle.hph_php.specs.Builtins as php;
ghost use Rattle.hph_builtin.specs.Replies.{miscount};

use hph_case::builtin_rows;
use hph_php::{Builtin, Fatal};
use hph_value::Stop;

macro_rules! least_of {
    ([$($function:tt)*] $($variant:ident = $code:literal, $least:literal, $name:literal;)*) => {
        match $($function)* {
            $(Builtin::$variant => $least,)*
        }
    };
}

/// How many arguments a call of a function has at least.
fn least_arguments(function: Builtin) -> usize
    ensures { result ≡ php.least_arguments function }
{
    builtin_rows!(least_of function)
}

/// The fatal error of a call with this number of arguments, which isn't one that the function takes: `TooFewArguments` below its
/// least number, else `BadArgument`. `Misuse` for functions that change an array, which take no values alone.
pub fn miscounted(function: Builtin, count: usize) -> Stop
    ensures { result ≡ Stop.Fatal (miscount function count) }
{
    if matches!(function, Builtin::ArrayPush | Builtin::ArrayPop) {
        Stop::Fatal(Fatal::Misuse)
    } else if count < least_arguments(function) {
        Stop::Fatal(Fatal::TooFewArguments)
    } else {
        Stop::Fatal(Fatal::BadArgument)
    }
}
