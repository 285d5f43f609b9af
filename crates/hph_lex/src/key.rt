//! The keys of elements in strings (PHP manual, Strings, String interpolation).
ghost use Rattle.std.specs.Prelude.{◌≡◌, ◌≤◌, ◌^◌, true, length, nat_lt, Some, None, if◌then◌else◌, IfOk, IfSome};
ghost use Rattle.std.specs.List.{list_all};
ghost use Rattle.std.specs.Option.{option_map};
ghost use Rattle.hph_ast.specs.Bytes.{is_digit};
ghost use Rattle.hph_ast.specs.Lexical.{key_of};
ghost use Rattle.hph_ast.specs.Strings.{value_of};
ghost use Rattle.hph_lex.specs.Answers.{is_plain, key_told, number_key_of};

use crate::bytes::{ByteClass, after};
use crate::found::Key;
use crate::start::begins_variable;
use hph_ast::Kind;
use sqlite_items::Items;
use std::alloc::{AllocError, Global};

const PHP_INT_MAX: u64 = i64::MAX as u64;

/// A key: a name, a variable, or a decimal number without a leading zero.
pub fn key(alloc: Global, bytes: &[u8]) -> Result<Option<Key>, AllocError>
    ensures value { IfOk result (λ key. option_map key_told key ≡ key_of bytes.now) }
    ensures within { IfOk result (λ key. IfSome key (λ key. key.length ≤ length bytes.now)) }
{
    if ByteClass::Letter.begins(bytes) {
        let (name, _) = ByteClass::Name.split(bytes);
        let length = name.len();
        let kind = Kind::Name(Items::from_slice(alloc, name)?);
        return Ok(Some(Key { kind, length }));
    }
    if begins_variable(bytes) {
        let (name, _) = ByteClass::Name.split(after(bytes, 1));
        let length = 1 + name.len();
        let kind = Kind::Variable(Items::from_slice(alloc, name)?);
        return Ok(Some(Key { kind, length }));
    }
    Ok(number_key(bytes))
}

/// A decimal number without a leading zero as a key.
fn number_key(bytes: &[u8]) -> Option<Key>
    ensures value { option_map key_told result ≡ number_key_of bytes.now }
    ensures within { IfSome result (λ key. key.length ≤ length bytes.now) }
{
    let (digits, _) = ByteClass::Digit.split(bytes);
    if !is_plain(digits) {
        return None;
    }
    let value = decimal(digits)?;
    Some(Key {
        kind: Kind::Int(value),
        length: digits.len(),
    })
}

/// Whether digits are there, without a leading zero before others.
fn is_plain(digits: &[u8]) -> bool
    ensures { result ≡ is_plain digits.now }
{
    match digits {
        [] => false,
        [_] => true,
        [first, ..] => *first != b'0',
    }
}

/// The value of decimal digits, if it is below 2^63.
fn decimal(digits: &[u8]) -> Option<u64>
    requires { list_all is_digit digits.now ≡ true }
    ensures { result ≡ (if nat_lt (value_of 10 digits.now) (2 ^ 63) then Some (value_of 10 digits.now) else None) }
{
    let mut value = 0;
    for digit in digits {
        let digit = u64::from(*digit - b'0');
        if value > (PHP_INT_MAX - digit) / 10 {
            return None;
        }
        value = 10 * value + digit;
    }
    Some(value)
}
