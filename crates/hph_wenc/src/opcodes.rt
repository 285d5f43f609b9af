//! Opcodes, in the order of the index of instructions (Core Specification 1.0, 5.4).
ghost use Rattle.std.specs.Prelude.{◌≡◌, ◌<◌};
ghost use Rattle.hph_wasm.specs.Codes.{opcode, load_code, narrow_load_code, store_code, narrow_store_code, eqz_code, comparison_code, unary_code, binary_code};

use hph_case::opcode_rows;
use hph_wasm::{Binary, Comparison, Instr, NarrowLoad, NarrowStore, Sign, Unary, ValType};

// Goes through the sections that are named in brackets: instructions by their forms, and then those whose opcodes go by what they hold.
macro_rules! with_the_other_forms {
    ([[$next:ident $($more:ident)*] $($done:tt)*] $($rows:tt)*) => {
        opcode_rows!($next with_the_other_forms [$($more)*] $($done)* $($rows)*)
    };
    ([[] $instr:ident $({ $($done:tt)* } = $opcode:literal, $immediates:literal, $text:literal;)*] $({ $($form:tt)* } = $code:literal, $count:literal, $name:literal;)*) => {
        match $instr {
            $(Instr::$($done)* => $opcode,)*
            $(Instr::$($form)* => $code,)*
            Instr::Load(ty, _) => load_opcode(*ty),
            Instr::LoadNarrow(part, _) => narrow_load_opcode(*part),
            Instr::Store(ty, _) => store_opcode(*ty),
            Instr::StoreNarrow(part, _) => narrow_store_opcode(*part),
            Instr::Eqz(ty) => eqz_opcode(*ty),
            Instr::Compare(ty, comparison) => comparison_opcode(*ty, *comparison),
            Instr::Unary(ty, operation) => unary_opcode(*ty, *operation),
            Instr::Binary(ty, operation) => binary_opcode(*ty, *operation),
        }
    };
}

macro_rules! opcode_of_type {
    ([$value:ident] $({ $($form:tt)* } = $code:literal, $count:literal, $name:literal;)*) => {
        match $value {
            $(ValType::$($form)* => $code,)*
        }
    };
}

macro_rules! opcode_of_narrow_load {
    ([$value:ident] $({ $($form:tt)* } = $code:literal, $count:literal, $name:literal;)*) => {
        match $value {
            $(NarrowLoad::$($form)* => $code,)*
        }
    };
}

macro_rules! opcode_of_narrow_store {
    ([$value:ident] $({ $($form:tt)* } = $code:literal, $count:literal, $name:literal;)*) => {
        match $value {
            $(NarrowStore::$($form)* => $code,)*
        }
    };
}

macro_rules! opcode_of_comparison {
    ([$value:ident] $({ $($form:tt)* } = $code:literal, $count:literal, $name:literal;)*) => {
        match $value {
            $(Comparison::$($form)* => $code,)*
        }
    };
}

macro_rules! opcode_of_unary {
    ([$value:ident] $({ $($form:tt)* } = $code:literal, $count:literal, $name:literal;)*) => {
        match $value {
            $(Unary::$($form)* => $code,)*
        }
    };
}

macro_rules! opcode_of_binary {
    ([$value:ident] $({ $($form:tt)* } = $code:literal, $count:literal, $name:literal;)*) => {
        match $value {
            $(Binary::$($form)* => $code,)*
        }
    };
}

/// The opcode of an instruction (5.4.1 to 5.4.5).
pub fn opcode_of(instr: &Instr) -> u8
    ensures { result ≡ opcode instr.now }
{
    opcode_rows!(control with_the_other_forms [plain constant conversion] instr)
}

/// Loads (5.4.4).
fn load_opcode(ty: ValType) -> u8
    ensures { result ≡ load_code ty }
{
    opcode_rows!(load opcode_of_type ty)
}

fn narrow_load_opcode(part: NarrowLoad) -> u8
    ensures { result ≡ narrow_load_code part }
{
    opcode_rows!(narrow_load opcode_of_narrow_load part)
}

/// Stores (5.4.4).
fn store_opcode(ty: ValType) -> u8
    ensures { result ≡ store_code ty }
{
    opcode_rows!(store opcode_of_type ty)
}

fn narrow_store_opcode(part: NarrowStore) -> u8
    ensures { result ≡ narrow_store_code part }
{
    opcode_rows!(narrow_store opcode_of_narrow_store part)
}

/// Tests and comparisons (5.4.5).
fn eqz_opcode(ty: ValType) -> u8
    ensures { result ≡ eqz_code ty }
{
    match ty {
        ValType::I32 => 0x45,
        ValType::I64 => 0x50,
    }
}

fn comparison_opcode(ty: ValType, comparison: Comparison) -> u8
    ensures { result ≡ comparison_code ty comparison }
{
    match ty {
        ValType::I32 => opcode_rows!(comparison_32 opcode_of_comparison comparison),
        ValType::I64 => opcode_rows!(comparison_64 opcode_of_comparison comparison),
    }
}

/// Operations on one number (5.4.5).
fn unary_opcode(ty: ValType, operation: Unary) -> u8
    ensures { result ≡ unary_code ty operation }
{
    match ty {
        ValType::I32 => opcode_rows!(unary_32 opcode_of_unary operation),
        ValType::I64 => opcode_rows!(unary_64 opcode_of_unary operation),
    }
}

/// Operations on two numbers (5.4.5).
fn binary_opcode(ty: ValType, operation: Binary) -> u8
    ensures { result ≡ binary_code ty operation }
{
    match ty {
        ValType::I32 => opcode_rows!(binary_32 opcode_of_binary operation),
        ValType::I64 => opcode_rows!(binary_64 opcode_of_binary operation),
    }
}
