//! Tests of kinds of values (PHP manual, Variable handling Functions).
ghost use Rattle.std.specs.Prelude.{◌≡◌};
ghost use Rattle.hph_php.specs.Builtins as php;
ghost use Rattle.hph_value.specs.Shown.{value_of};

use hph_value::Value;

/// Whether a value is an int (`is_int`).
#[tactic(auto, using(crate::proofs::Shown::shown))]
pub fn is_int(value: &Value) -> bool
    ensures { result ≡ php.is_int (value_of value.now) }
{
    matches!(value, Value::Int(_))
}

/// Whether a value is a string (`is_string`).
#[tactic(auto, using(crate::proofs::Shown::shown))]
pub fn is_string(value: &Value) -> bool
    ensures { result ≡ php.is_string (value_of value.now) }
{
    matches!(value, Value::Str(_))
}

/// Whether a value is a bool (`is_bool`).
#[tactic(auto, using(crate::proofs::Shown::shown))]
pub fn is_bool(value: &Value) -> bool
    ensures { result ≡ php.is_bool (value_of value.now) }
{
    matches!(value, Value::Bool(_))
}

/// Whether a value is an array (`is_array`).
#[tactic(auto, using(crate::proofs::Shown::shown))]
pub fn is_array(value: &Value) -> bool
    ensures { result ≡ php.is_array (value_of value.now) }
{
    matches!(value, Value::Arr(_))
}

/// Whether a value is null (`is_null`).
#[tactic(auto, using(crate::proofs::Shown::shown))]
pub fn is_null(value: &Value) -> bool
    ensures { result ≡ php.is_null (value_of value.now) }
{
    matches!(value, Value::Null)
}

/// Whether a value is an object (`is_object`).
#[tactic(auto, using(crate::proofs::Shown::shown))]
pub fn is_object(value: &Value) -> bool
    ensures { result ≡ php.is_object (value_of value.now) }
{
    matches!(value, Value::Obj(_))
}
