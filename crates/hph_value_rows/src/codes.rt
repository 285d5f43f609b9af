//! What the numbers that a module passes stand for: operators, and ints in two's complement.
ghost use Rattle.std.specs.Prelude.{◌≡◌};
ghost use Rattle.hph_wasm.specs.Integers as integers;
ghost use Rattle.hph_php.specs.Codes.{binary_with, unary_with};

use hph_php::{BinOp, UnOp};

/// The binary operator of a code, which may be any number.
#[tactic(auto, using(crate::proofs::Numbered::no_binary))]
pub fn binary_operator(code: u64) -> Option<BinOp>
    ensures { result ≡ binary_with code }
{
    match u32::try_from(code) {
        Ok(code) => BinOp::from_code(code),
        Err(_) => None,
    }
}

/// The unary operator of a code, which may be any number.
#[tactic(auto, using(crate::proofs::Numbered::no_unary))]
pub fn unary_operator(code: u64) -> Option<UnOp>
    ensures { result ≡ unary_with code }
{
    match u32::try_from(code) {
        Ok(code) => UnOp::from_code(code),
        Err(_) => None,
    }
}

/// The int of 64 bits.
pub fn signed(bits: u64) -> i64
    ensures { result ≡ integers.signed 64 bits }
{
    bits.cast_signed()
}

/// The 64 bits of an int.
pub fn unsigned(number: i64) -> u64
    ensures { result ≡ integers.unsigned 64 number }
{
    number.cast_unsigned()
}
