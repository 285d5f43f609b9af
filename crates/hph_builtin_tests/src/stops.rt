//! Calls that end in a fatal error.
use crate::arguments::Arg::{Bool, Int, Ints, Null, Object, Objects, Text, Texts};
use crate::arguments::{Arg, values};
use hph_builtin::{HostStop, call};
use hph_php::{Builtin, Fatal};
use hph_src::MemSink;
use std::alloc::{AllocError, Global};
use std::test::Fail;

struct Row {
    function: Builtin,
    args: &'static [Arg],
    fatal: Fatal,
}

macro_rules! rows {
    ($($function:ident($($arg:expr),*) => $fatal:ident;)*) => {
        [$(Row { function: Builtin::$function, args: &[$($arg),*], fatal: Fatal::$fatal },)*]
    };
}

// The count is tested before the sorts, and these from the left.
const COUNTS: &[Row] = &rows! {
    Strlen() => TooFewArguments;
    Strlen(Object, Object) => BadArgument;
    Count() => TooFewArguments;
    Count(Null, Null) => BadArgument;
    Intdiv(Text("x")) => TooFewArguments;
    Intdiv(Text("1.5"), Int(1), Int(1)) => BadArgument;
    Intdiv(Text("1.5"), Text("x")) => Float;
    Intdiv(Text("x"), Text("1.5")) => BadArgument;
    Abs() => TooFewArguments;
    Ord() => TooFewArguments;
    Chr() => TooFewArguments;
    Substr(Text("a")) => TooFewArguments;
    Substr(Text("a"), Int(1), Int(1), Int(1)) => BadArgument;
    Strpos(Text("a")) => TooFewArguments;
    Strpos(Text("a"), Text("a"), Int(0), Int(0)) => BadArgument;
    StrRepeat(Text("a")) => TooFewArguments;
    Strrev() => TooFewArguments;
    Strtolower() => TooFewArguments;
    Strtoupper() => TooFewArguments;
    Trim() => TooFewArguments;
    Trim(Text("a"), Text("a")) => BadArgument;
    Implode(Texts(&["a"])) => TooFewArguments;
    Explode(Text("a")) => TooFewArguments;
    Explode(Text("a"), Text("a"), Int(1)) => BadArgument;
    ArrayKeys() => TooFewArguments;
    ArrayValues() => TooFewArguments;
    ArrayPush() => Misuse;
    ArrayPop(Ints(&[1])) => Misuse;
    InArray(Int(1)) => TooFewArguments;
    InArray(Int(1), Ints(&[1]), Bool(true), Null) => BadArgument;
    ArrayKeyExists(Int(1)) => TooFewArguments;
    IsInt() => TooFewArguments;
    IsString() => TooFewArguments;
    IsBool() => TooFewArguments;
    IsArray() => TooFewArguments;
    IsNull() => TooFewArguments;
    IsObject(Null, Null) => BadArgument;
    VarDump() => TooFewArguments;
};

const OWN: &[Row] = &rows! {
    Strlen(Ints(&[1])) => BadArgument;
    Strlen(Object) => BadArgument;
    Count(Text("abc")) => BadArgument;
    Intdiv(Int(1), Int(0)) => DivZero;
    Intdiv(Int(i64::MIN), Int(-1)) => Overflow;
    Abs(Int(i64::MIN)) => Overflow;
    Abs(Text("1.5")) => Float;
    Abs(Text("12abc")) => BadArgument;
    Ord(Object) => BadArgument;
    Chr(Text("9223372036854775808")) => Float;
    Substr(Text("abc"), Int(0), Text("1e1")) => Float;
    Substr(Text("abc"), Int(0), Ints(&[])) => BadArgument;
    Strpos(Text("abc"), Text("a"), Int(4)) => BadArgument;
    Strpos(Text("abc"), Text("a"), Int(-4)) => BadArgument;
    StrRepeat(Text("a"), Int(-1)) => BadArgument;
    Strrev(Object) => BadArgument;
    Strtolower(Ints(&[])) => BadArgument;
    Strtoupper(Ints(&[])) => BadArgument;
    Trim(Object) => BadArgument;
    Implode(Text(","), Text("a")) => BadArgument;
    Implode(Texts(&[]), Texts(&[])) => BadArgument;
    Implode(Text(","), Objects) => ObjectUse;
    Explode(Text(""), Text("abc")) => BadArgument;
    ArrayKeys(Null) => BadArgument;
    ArrayValues(Object) => BadArgument;
    InArray(Text("10"), Texts(&["1e1"])) => Float;
    InArray(Object, Ints(&[1])) => ObjectCompare;
    InArray(Int(1), Int(1)) => BadArgument;
    ArrayKeyExists(Ints(&[]), Ints(&[])) => IllegalOffset;
    ArrayKeyExists(Object, Ints(&[])) => IllegalOffset;
    ArrayKeyExists(Int(1), Text("a")) => BadArgument;
    VarDump(Object) => ObjectUse;
};

// Whether a row's call ends in its fatal error.
fn stops(alloc: Global, row: &Row) -> Result<bool, AllocError> {
    let args = values(alloc, row.args)?;
    let mut sink = MemSink::new(alloc);
    match call(alloc, row.function, &args, &mut sink) {
        Err(HostStop::Fatal(fatal)) => Ok(fatal == row.fatal),
        _ => Ok(false),
    }
}

// The number of the first row that doesn't, if there is one.
fn first_other(alloc: Global, rows: &[Row]) -> Result<Option<usize>, AllocError> {
    for index in 0..rows.len() {
        if !stops(alloc, &rows[index])? {
            return Ok(Some(index));
        }
    }
    Ok(None)
}

#[test]
fn counts_arguments_first(rt: HostRuntime) -> Result<(), Fail> {
    assert_eq!(rt; first_other(rt.alloc(), COUNTS)?, None);
    Ok(())
}

#[test]
fn refuses_what_a_function_does_not_take(rt: HostRuntime) -> Result<(), Fail> {
    assert_eq!(rt; first_other(rt.alloc(), OWN)?, None);
    Ok(())
}
