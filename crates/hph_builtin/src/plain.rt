//! The functions that are functions of their arguments and print nothing, by how many arguments a call has.
ghost use Rattle.std.specs.Prelude.{◌≡◌, ◌∷◌, [], true};
ghost use Rattle.hph_php.specs.Builtins as php;
ghost use Rattle.hph_value.specs.Shown.{value_of, Tells};
ghost use Rattle.hph_builtin.specs.Replies.{is_silent};

use crate::arrays::{array_key_exists, array_keys, array_values, count, in_array};
use crate::counts::miscounted;
use crate::kinds::{is_array, is_bool, is_int, is_null, is_object, is_string};
use crate::numbers::{abs, intdiv};
use crate::strings::{
    chr, explode, implode, ord, str_repeat, strlen, strpos, strrev, strtolower, strtoupper, substr,
    trim,
};
use hph_php::Builtin;
use hph_value::{Stop, Value};
use std::alloc::Global;

/// A call with one argument.
#[tactic(auto, using(crate::proofs::Shown::shown))]
pub fn call_with_one(alloc: Global, function: Builtin, a: &Value) -> Result<Value, Stop>
    requires { is_silent function ≡ true }
    ensures { Tells result (php.builtin_of function (value_of a.now ∷ [])).value }
{
    match function {
        Builtin::Strlen => strlen(alloc, a),
        Builtin::Count => count(a),
        Builtin::Abs => abs(a),
        Builtin::Ord => ord(alloc, a),
        Builtin::Chr => chr(alloc, a),
        Builtin::Strrev => strrev(alloc, a),
        Builtin::Strtolower => strtolower(alloc, a),
        Builtin::Strtoupper => strtoupper(alloc, a),
        Builtin::Trim => trim(alloc, a),
        Builtin::ArrayKeys => array_keys(alloc, a),
        Builtin::ArrayValues => array_values(alloc, a),
        Builtin::IsInt => Ok(Value::Bool(is_int(a))),
        Builtin::IsString => Ok(Value::Bool(is_string(a))),
        Builtin::IsBool => Ok(Value::Bool(is_bool(a))),
        Builtin::IsArray => Ok(Value::Bool(is_array(a))),
        Builtin::IsNull => Ok(Value::Bool(is_null(a))),
        Builtin::IsObject => Ok(Value::Bool(is_object(a))),
        _ => Err(miscounted(function, 1)),
    }
}

/// A call with two arguments.
#[tactic(auto, using(crate::proofs::Shown::shown))]
pub fn call_with_two(alloc: Global, function: Builtin, a: &Value, b: &Value) -> Result<Value, Stop>
    requires { is_silent function ≡ true }
    ensures { Tells result (php.builtin_of function (value_of a.now ∷ value_of b.now ∷ [])).value }
{
    match function {
        Builtin::Intdiv => intdiv(a, b),
        Builtin::Substr => substr(alloc, a, b, &Value::Null),
        Builtin::Strpos => strpos(alloc, a, b, &Value::Int(0)),
        Builtin::StrRepeat => str_repeat(alloc, a, b),
        Builtin::Implode => implode(alloc, a, b),
        Builtin::Explode => explode(alloc, a, b),
        Builtin::InArray => in_array(alloc, a, b, &Value::Bool(false)),
        Builtin::ArrayKeyExists => array_key_exists(alloc, a, b),
        _ => Err(miscounted(function, 2)),
    }
}

/// A call with three arguments.
pub fn call_with_three(
    alloc: Global,
    function: Builtin,
    a: &Value,
    b: &Value,
    c: &Value,
) -> Result<Value, Stop>
    requires { is_silent function ≡ true }
    ensures { Tells result (php.builtin_of function (value_of a.now ∷ value_of b.now ∷ value_of c.now ∷ [])).value }
{
    match function {
        Builtin::Substr => substr(alloc, a, b, c),
        Builtin::Strpos => strpos(alloc, a, b, c),
        Builtin::InArray => in_array(alloc, a, b, c),
        _ => Err(miscounted(function, 3)),
    }
}
