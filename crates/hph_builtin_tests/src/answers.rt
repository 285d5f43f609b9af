//! What calls give. Each row has a call and what PHP 8.2 dumps of its answer.
use crate::arguments::Arg::{Bool, Int, Ints, Keys, Null, Object, Text, Texts};
use crate::arguments::{Arg, values};
use hph_builtin::call;
use hph_php::Builtin;
use hph_src::MemSink;
use std::alloc::{AllocError, Global};
use std::slice;
use std::test::Fail;

struct Row {
    function: Builtin,
    args: &'static [Arg],
    shown: &'static str,
}

macro_rules! rows {
    ($($function:ident($($arg:expr),*) => $shown:literal;)*) => {
        [$(Row { function: Builtin::$function, args: &[$($arg),*], shown: $shown },)*]
    };
}

const STRINGS: &[Row] = &rows! {
    Strlen(Text("abc\0")) => "int(4)\n";
    Strlen(Int(-10)) => "int(3)\n";
    Strlen(Null) => "int(0)\n";
    Ord(Text("A")) => "int(65)\n";
    Ord(Text("")) => "int(0)\n";
    Chr(Int(65)) => "string(1) \"A\"\n";
    Chr(Int(321)) => "string(1) \"A\"\n";
    Chr(Int(-208)) => "string(1) \"0\"\n";
    Substr(Text("hello"), Int(1)) => "string(4) \"ello\"\n";
    Substr(Text("hello"), Int(1), Int(-1)) => "string(3) \"ell\"\n";
    Substr(Text("hello"), Int(-3), Int(2)) => "string(2) \"ll\"\n";
    Substr(Text("abc"), Int(9)) => "string(0) \"\"\n";
    Substr(Text("abc"), Int(-8), Int(1)) => "string(1) \"a\"\n";
    Substr(Text("abc"), Int(2), Int(-4)) => "string(0) \"\"\n";
    Substr(Text("abc"), Int(1), Null) => "string(2) \"bc\"\n";
    StrRepeat(Text("ab"), Int(3)) => "string(6) \"ababab\"\n";
    StrRepeat(Text("ab"), Int(0)) => "string(0) \"\"\n";
    StrRepeat(Text(""), Int(5)) => "string(0) \"\"\n";
    Strrev(Text("abc")) => "string(3) \"cba\"\n";
    Strtolower(Text("AbZ{`9")) => "string(6) \"abz{`9\"\n";
    Strtoupper(Text("AbZ{`9")) => "string(6) \"ABZ{`9\"\n";
    Trim(Text(" \t\n\r\0\x0ba b\n")) => "string(3) \"a b\"\n";
    Trim(Text("\x0c")) => "string(1) \"\x0c\"\n";
};

const PLACES: &[Row] = &rows! {
    Strpos(Text("abcabc"), Text("c")) => "int(2)\n";
    Strpos(Text("abcabc"), Text("c"), Int(3)) => "int(5)\n";
    Strpos(Text("abcabc"), Text("a"), Int(-3)) => "int(3)\n";
    Strpos(Text("abc"), Text("")) => "int(0)\n";
    Strpos(Text("abc"), Text(""), Int(-1)) => "int(2)\n";
    Strpos(Text("abc"), Text(""), Int(3)) => "int(3)\n";
    Strpos(Text("abc"), Text("d")) => "bool(false)\n";
    Strpos(Text("aaaab"), Text("aab")) => "int(2)\n";
    Explode(Text(", "), Text(", a,b, ")) => "array(3) {\n  [0]=>\n  string(0) \"\"\n  [1]=>\n  string(3) \"a,b\"\n  [2]=>\n  string(0) \"\"\n}\n";
    Explode(Text("aa"), Text("aaaaa")) => "array(3) {\n  [0]=>\n  string(0) \"\"\n  [1]=>\n  string(0) \"\"\n  [2]=>\n  string(1) \"a\"\n}\n";
    Explode(Text("x"), Text("")) => "array(1) {\n  [0]=>\n  string(0) \"\"\n}\n";
    Implode(Text(", "), Texts(&["a", "b", ""])) => "string(6) \"a, b, \"\n";
    Implode(Text(""), Ints(&[1, -2])) => "string(3) \"1-2\"\n";
    Implode(Text("x"), Ints(&[])) => "string(0) \"\"\n";
};

const NUMBERS: &[Row] = &rows! {
    Intdiv(Int(-7), Int(2)) => "int(-3)\n";
    Intdiv(Text("9 "), Bool(true)) => "int(9)\n";
    Abs(Int(-5)) => "int(5)\n";
    Abs(Null) => "int(0)\n";
    Abs(Text("7")) => "int(7)\n";
};

const ARRAYS: &[Row] = &rows! {
    Count(Ints(&[3, 4])) => "int(2)\n";
    Count(Ints(&[])) => "int(0)\n";
    Count(Keys(&[Text("08"), Int(8), Text("8"), Bool(true), Null])) => "int(4)\n";
    ArrayKeys(Texts(&["a", "b"])) => "array(2) {\n  [0]=>\n  int(0)\n  [1]=>\n  int(1)\n}\n";
    ArrayValues(Ints(&[5, 6])) => "array(2) {\n  [0]=>\n  int(5)\n  [1]=>\n  int(6)\n}\n";
    InArray(Text("5"), Ints(&[4, 5])) => "bool(true)\n";
    InArray(Text("5"), Ints(&[4, 5]), Bool(true)) => "bool(false)\n";
    InArray(Text("5"), Ints(&[4, 5]), Text("yes")) => "bool(false)\n";
    InArray(Text("abc"), Ints(&[0])) => "bool(false)\n";
    InArray(Int(0), Ints(&[])) => "bool(false)\n";
    ArrayKeyExists(Text("1"), Texts(&["a", "b"])) => "bool(true)\n";
    ArrayKeyExists(Text("01"), Texts(&["a", "b"])) => "bool(false)\n";
    ArrayKeyExists(Bool(true), Texts(&["a", "b"])) => "bool(true)\n";
    ArrayKeyExists(Null, Texts(&["a"])) => "bool(false)\n";
};

const KINDS: &[Row] = &rows! {
    IsInt(Int(1)) => "bool(true)\n";
    IsInt(Text("1")) => "bool(false)\n";
    IsString(Text("")) => "bool(true)\n";
    IsString(Null) => "bool(false)\n";
    IsBool(Bool(false)) => "bool(true)\n";
    IsBool(Int(0)) => "bool(false)\n";
    IsArray(Ints(&[])) => "bool(true)\n";
    IsArray(Text("")) => "bool(false)\n";
    IsNull(Null) => "bool(true)\n";
    IsNull(Bool(false)) => "bool(false)\n";
    IsObject(Object) => "bool(true)\n";
    IsObject(Ints(&[])) => "bool(false)\n";
};

// Whether the dump of a row's answer is PHP's.
fn gives(alloc: Global, row: &Row) -> Result<bool, AllocError> {
    let args = values(alloc, row.args)?;
    let mut sink = MemSink::new(alloc);
    let Ok(value) = call(alloc, row.function, &args, &mut sink) else {
        return Ok(false);
    };
    let dumped = call(alloc, Builtin::VarDump, slice::from_ref(&value), &mut sink).is_ok();
    Ok(dumped && sink.bytes() == row.shown.as_bytes())
}

// The number of the first row that gives another answer, if one does.
fn first_other(alloc: Global, rows: &[Row]) -> Result<Option<usize>, AllocError> {
    for index in 0..rows.len() {
        if !gives(alloc, &rows[index])? {
            return Ok(Some(index));
        }
    }
    Ok(None)
}

#[test]
fn gives_strings(rt: HostRuntime) -> Result<(), Fail> {
    assert_eq!(rt; first_other(rt.alloc(), STRINGS)?, None);
    assert_eq!(rt; first_other(rt.alloc(), PLACES)?, None);
    Ok(())
}

#[test]
fn gives_numbers_and_kinds(rt: HostRuntime) -> Result<(), Fail> {
    assert_eq!(rt; first_other(rt.alloc(), NUMBERS)?, None);
    assert_eq!(rt; first_other(rt.alloc(), KINDS)?, None);
    Ok(())
}

#[test]
fn gives_what_is_in_arrays(rt: HostRuntime) -> Result<(), Fail> {
    assert_eq!(rt; first_other(rt.alloc(), ARRAYS)?, None);
    Ok(())
}
