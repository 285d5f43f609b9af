//! Operations by their opcodes, in the order of the index of instructions (Core Specification 1.0, 5.4). Each function gives
//! the operation that an opcode is of, and None where it is of none of its kind.
ghost use Rattle.std.specs.Prelude.{◌≡◌, MatchOption};
ghost use Rattle.hph_wasm.specs.declared.types.ValType.TheVariants as types;
ghost use Rattle.hph_wasm.specs.declared.types.ValType.{ValType};
ghost use Rattle.hph_wasm.specs.declared.instr.NarrowLoad.{NarrowLoad};
ghost use Rattle.hph_wasm.specs.declared.instr.NarrowStore.{NarrowStore};
ghost use Rattle.hph_wasm.specs.declared.instr.Comparison.{Comparison};
ghost use Rattle.hph_wasm.specs.declared.instr.Unary.{Unary};
ghost use Rattle.hph_wasm.specs.declared.instr.Binary.{Binary};
ghost use Rattle.hph_wasm.specs.Codes.{load_code, narrow_load_code, store_code, narrow_store_code, eqz_code, comparison_code, unary_code, binary_code};

use hph_case::opcode_rows;
use hph_wasm::{Binary, Comparison, NarrowLoad, NarrowStore, Sign, Unary, ValType};

macro_rules! type_of {
    ([$opcode:ident] $({ $($form:tt)* } = $code:literal, $count:literal, $name:literal;)*) => {
        match $opcode {
            $($code => Some(ValType::$($form)*),)*
            _ => None,
        }
    };
}

macro_rules! narrow_load_of {
    ([$opcode:ident] $({ $($form:tt)* } = $code:literal, $count:literal, $name:literal;)*) => {
        match $opcode {
            $($code => Some(NarrowLoad::$($form)*),)*
            _ => None,
        }
    };
}

macro_rules! narrow_store_of {
    ([$opcode:ident] $({ $($form:tt)* } = $code:literal, $count:literal, $name:literal;)*) => {
        match $opcode {
            $($code => Some(NarrowStore::$($form)*),)*
            _ => None,
        }
    };
}

macro_rules! comparison_of {
    ([$opcode:ident] $({ $($form:tt)* } = $code:literal, $count:literal, $name:literal;)*) => {
        match $opcode {
            $($code => Some(Comparison::$($form)*),)*
            _ => None,
        }
    };
}

macro_rules! unary_of {
    ([$opcode:ident] $({ $($form:tt)* } = $code:literal, $count:literal, $name:literal;)*) => {
        match $opcode {
            $($code => Some(Unary::$($form)*),)*
            _ => None,
        }
    };
}

macro_rules! binary_of {
    ([$opcode:ident] $({ $($form:tt)* } = $code:literal, $count:literal, $name:literal;)*) => {
        match $opcode {
            $($code => Some(Binary::$($form)*),)*
            _ => None,
        }
    };
}

/// Loads (5.4.4).
pub fn load(code: u8) -> Option<ValType>
    ensures { MatchOption result ((o : ValType) → ¬ (load_code o ≡ code)) (λ o. load_code o ≡ code) }
{
    opcode_rows!(load type_of code)
}

/// Loads of fewer bits (5.4.4).
pub fn narrow_load(code: u8) -> Option<NarrowLoad>
    ensures { MatchOption result ((o : NarrowLoad) → ¬ (narrow_load_code o ≡ code)) (λ o. narrow_load_code o ≡ code) }
{
    opcode_rows!(narrow_load narrow_load_of code)
}

/// Stores (5.4.4).
pub fn store(code: u8) -> Option<ValType>
    ensures { MatchOption result ((o : ValType) → ¬ (store_code o ≡ code)) (λ o. store_code o ≡ code) }
{
    opcode_rows!(store type_of code)
}

/// Stores of fewer bits (5.4.4).
pub fn narrow_store(code: u8) -> Option<NarrowStore>
    ensures { MatchOption result ((o : NarrowStore) → ¬ (narrow_store_code o ≡ code)) (λ o. narrow_store_code o ≡ code) }
{
    opcode_rows!(narrow_store narrow_store_of code)
}

/// Tests for zero (5.4.5).
pub fn zero_test(code: u8) -> Option<ValType>
    ensures { MatchOption result ((o : ValType) → ¬ (eqz_code o ≡ code)) (λ o. eqz_code o ≡ code) }
{
    match code {
        0x45 => Some(ValType::I32),
        0x50 => Some(ValType::I64),
        _ => None,
    }
}

/// Comparisons of numbers of 32 bits (5.4.5).
pub fn comparison_32(code: u8) -> Option<Comparison>
    ensures { MatchOption result ((o : Comparison) → ¬ (comparison_code types.I32 o ≡ code)) (λ o. comparison_code types.I32 o ≡ code) }
{
    opcode_rows!(comparison_32 comparison_of code)
}

/// Comparisons of numbers of 64 bits (5.4.5).
pub fn comparison_64(code: u8) -> Option<Comparison>
    ensures { MatchOption result ((o : Comparison) → ¬ (comparison_code types.I64 o ≡ code)) (λ o. comparison_code types.I64 o ≡ code) }
{
    opcode_rows!(comparison_64 comparison_of code)
}

/// Operations on one number of 32 bits (5.4.5).
pub fn unary_32(code: u8) -> Option<Unary>
    ensures { MatchOption result ((o : Unary) → ¬ (unary_code types.I32 o ≡ code)) (λ o. unary_code types.I32 o ≡ code) }
{
    opcode_rows!(unary_32 unary_of code)
}

/// Operations on one number of 64 bits (5.4.5).
pub fn unary_64(code: u8) -> Option<Unary>
    ensures { MatchOption result ((o : Unary) → ¬ (unary_code types.I64 o ≡ code)) (λ o. unary_code types.I64 o ≡ code) }
{
    opcode_rows!(unary_64 unary_of code)
}

/// Operations on two numbers of 32 bits (5.4.5).
pub fn binary_32(code: u8) -> Option<Binary>
    ensures { MatchOption result ((o : Binary) → ¬ (binary_code types.I32 o ≡ code)) (λ o. binary_code types.I32 o ≡ code) }
{
    opcode_rows!(binary_32 binary_of code)
}

/// Operations on two numbers of 64 bits (5.4.5).
pub fn binary_64(code: u8) -> Option<Binary>
    ensures { MatchOption result ((o : Binary) → ¬ (binary_code types.I64 o ≡ code)) (λ o. binary_code types.I64 o ≡ code) }
{
    opcode_rows!(binary_64 binary_of code)
}
