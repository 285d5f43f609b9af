ghost use Rattle.std.specs.Prelude.{◌≡◌};
ghost use Rattle.hph_case.specs.Opcodes.{opcodes};

use crate::cases::{Cases, Row};

/// The one list of the opcodes that are used, in their order (Core Specification 1.0, 5.4), by sections. Of the section that is named first it calls the macro `then`
/// with what is given behind it, in brackets, and the rows `{ form } = opcode, number of immediates, name;`. A form is written as in Rust, of an instruction
/// with `_` for what it holds.
#[macro_export]
macro_rules! opcode_rows {
    // Blocks, and what stands in them (5.4.1); the form is an instruction's.
    (control $then:ident $($given:tt)*) => {
        $then! {
            [$($given)*]
            { Unreachable } = 0x00, 0, "unreachable";
            { Nop } = 0x01, 0, "nop";
            { Block(_, _) } = 0x02, 1, "block";
            { Loop(_, _) } = 0x03, 1, "loop";
            { If(_, _, _) } = 0x04, 1, "if";
        }
    };
    // What parts and ends blocks.
    (delimiter $then:ident $($given:tt)*) => {
        $then! {
            [$($given)*]
            { Else } = 0x05, 0, "else";
            { End } = 0x0B, 0, "end";
        }
    };
    // Branches, calls, operands and variables (5.4.1 to 5.4.3).
    (plain $then:ident $($given:tt)*) => {
        $then! {
            [$($given)*]
            { Br(_) } = 0x0C, 1, "br";
            { BrIf(_) } = 0x0D, 1, "br_if";
            { BrTable(_, _) } = 0x0E, 2, "br_table";
            { Return } = 0x0F, 0, "return";
            { Call(_) } = 0x10, 1, "call";
            { CallIndirect(_) } = 0x11, 2, "call_indirect";
            { Drop } = 0x1A, 0, "drop";
            { Select } = 0x1B, 0, "select";
            { LocalGet(_) } = 0x20, 1, "local.get";
            { LocalSet(_) } = 0x21, 1, "local.set";
            { LocalTee(_) } = 0x22, 1, "local.tee";
            { GlobalGet(_) } = 0x23, 1, "global.get";
            { GlobalSet(_) } = 0x24, 1, "global.set";
        }
    };
    // Loads (5.4.4); the form is the type.
    (load $then:ident $($given:tt)*) => {
        $then! {
            [$($given)*]
            { I32 } = 0x28, 2, "i32.load";
            { I64 } = 0x29, 2, "i64.load";
        }
    };
    // Loads of fewer bits.
    (narrow_load $then:ident $($given:tt)*) => {
        $then! {
            [$($given)*]
            { I32From8(Sign::Signed) } = 0x2C, 2, "i32.load8_s";
            { I32From8(Sign::Unsigned) } = 0x2D, 2, "i32.load8_u";
            { I32From16(Sign::Signed) } = 0x2E, 2, "i32.load16_s";
            { I32From16(Sign::Unsigned) } = 0x2F, 2, "i32.load16_u";
            { I64From8(Sign::Signed) } = 0x30, 2, "i64.load8_s";
            { I64From8(Sign::Unsigned) } = 0x31, 2, "i64.load8_u";
            { I64From16(Sign::Signed) } = 0x32, 2, "i64.load16_s";
            { I64From16(Sign::Unsigned) } = 0x33, 2, "i64.load16_u";
            { I64From32(Sign::Signed) } = 0x34, 2, "i64.load32_s";
            { I64From32(Sign::Unsigned) } = 0x35, 2, "i64.load32_u";
        }
    };
    // Stores.
    (store $then:ident $($given:tt)*) => {
        $then! {
            [$($given)*]
            { I32 } = 0x36, 2, "i32.store";
            { I64 } = 0x37, 2, "i64.store";
        }
    };
    // Stores of fewer bits.
    (narrow_store $then:ident $($given:tt)*) => {
        $then! {
            [$($given)*]
            { I32To8 } = 0x3A, 2, "i32.store8";
            { I32To16 } = 0x3B, 2, "i32.store16";
            { I64To8 } = 0x3C, 2, "i64.store8";
            { I64To16 } = 0x3D, 2, "i64.store16";
            { I64To32 } = 0x3E, 2, "i64.store32";
        }
    };
    // Constants (5.4.5).
    (constant $then:ident $($given:tt)*) => {
        $then! {
            [$($given)*]
            { I32Const(_) } = 0x41, 1, "i32.const";
            { I64Const(_) } = 0x42, 1, "i64.const";
        }
    };
    // Tests.
    (test_32 $then:ident $($given:tt)*) => {
        $then! {
            [$($given)*]
            { I32 } = 0x45, 0, "i32.eqz";
        }
    };
    // Comparisons of 32 bits.
    (comparison_32 $then:ident $($given:tt)*) => {
        $then! {
            [$($given)*]
            { Eq } = 0x46, 0, "i32.eq";
            { Ne } = 0x47, 0, "i32.ne";
            { Lt(Sign::Signed) } = 0x48, 0, "i32.lt_s";
            { Lt(Sign::Unsigned) } = 0x49, 0, "i32.lt_u";
            { Gt(Sign::Signed) } = 0x4A, 0, "i32.gt_s";
            { Gt(Sign::Unsigned) } = 0x4B, 0, "i32.gt_u";
            { Le(Sign::Signed) } = 0x4C, 0, "i32.le_s";
            { Le(Sign::Unsigned) } = 0x4D, 0, "i32.le_u";
            { Ge(Sign::Signed) } = 0x4E, 0, "i32.ge_s";
            { Ge(Sign::Unsigned) } = 0x4F, 0, "i32.ge_u";
        }
    };
    // Tests of 64 bits.
    (test_64 $then:ident $($given:tt)*) => {
        $then! {
            [$($given)*]
            { I64 } = 0x50, 0, "i64.eqz";
        }
    };
    // Comparisons of 64 bits.
    (comparison_64 $then:ident $($given:tt)*) => {
        $then! {
            [$($given)*]
            { Eq } = 0x51, 0, "i64.eq";
            { Ne } = 0x52, 0, "i64.ne";
            { Lt(Sign::Signed) } = 0x53, 0, "i64.lt_s";
            { Lt(Sign::Unsigned) } = 0x54, 0, "i64.lt_u";
            { Gt(Sign::Signed) } = 0x55, 0, "i64.gt_s";
            { Gt(Sign::Unsigned) } = 0x56, 0, "i64.gt_u";
            { Le(Sign::Signed) } = 0x57, 0, "i64.le_s";
            { Le(Sign::Unsigned) } = 0x58, 0, "i64.le_u";
            { Ge(Sign::Signed) } = 0x59, 0, "i64.ge_s";
            { Ge(Sign::Unsigned) } = 0x5A, 0, "i64.ge_u";
        }
    };
    // Operations on one number of 32 bits.
    (unary_32 $then:ident $($given:tt)*) => {
        $then! {
            [$($given)*]
            { Clz } = 0x67, 0, "i32.clz";
            { Ctz } = 0x68, 0, "i32.ctz";
            { Popcnt } = 0x69, 0, "i32.popcnt";
        }
    };
    // Operations on two numbers of 32 bits.
    (binary_32 $then:ident $($given:tt)*) => {
        $then! {
            [$($given)*]
            { Add } = 0x6A, 0, "i32.add";
            { Sub } = 0x6B, 0, "i32.sub";
            { Mul } = 0x6C, 0, "i32.mul";
            { Div(Sign::Signed) } = 0x6D, 0, "i32.div_s";
            { Div(Sign::Unsigned) } = 0x6E, 0, "i32.div_u";
            { Rem(Sign::Signed) } = 0x6F, 0, "i32.rem_s";
            { Rem(Sign::Unsigned) } = 0x70, 0, "i32.rem_u";
            { And } = 0x71, 0, "i32.and";
            { Or } = 0x72, 0, "i32.or";
            { Xor } = 0x73, 0, "i32.xor";
            { Shl } = 0x74, 0, "i32.shl";
            { Shr(Sign::Signed) } = 0x75, 0, "i32.shr_s";
            { Shr(Sign::Unsigned) } = 0x76, 0, "i32.shr_u";
            { Rotl } = 0x77, 0, "i32.rotl";
            { Rotr } = 0x78, 0, "i32.rotr";
        }
    };
    // Operations on one number of 64 bits.
    (unary_64 $then:ident $($given:tt)*) => {
        $then! {
            [$($given)*]
            { Clz } = 0x79, 0, "i64.clz";
            { Ctz } = 0x7A, 0, "i64.ctz";
            { Popcnt } = 0x7B, 0, "i64.popcnt";
        }
    };
    // Operations on two numbers of 64 bits.
    (binary_64 $then:ident $($given:tt)*) => {
        $then! {
            [$($given)*]
            { Add } = 0x7C, 0, "i64.add";
            { Sub } = 0x7D, 0, "i64.sub";
            { Mul } = 0x7E, 0, "i64.mul";
            { Div(Sign::Signed) } = 0x7F, 0, "i64.div_s";
            { Div(Sign::Unsigned) } = 0x80, 0, "i64.div_u";
            { Rem(Sign::Signed) } = 0x81, 0, "i64.rem_s";
            { Rem(Sign::Unsigned) } = 0x82, 0, "i64.rem_u";
            { And } = 0x83, 0, "i64.and";
            { Or } = 0x84, 0, "i64.or";
            { Xor } = 0x85, 0, "i64.xor";
            { Shl } = 0x86, 0, "i64.shl";
            { Shr(Sign::Signed) } = 0x87, 0, "i64.shr_s";
            { Shr(Sign::Unsigned) } = 0x88, 0, "i64.shr_u";
            { Rotl } = 0x89, 0, "i64.rotl";
            { Rotr } = 0x8A, 0, "i64.rotr";
        }
    };
    // Conversions.
    (conversion $then:ident $($given:tt)*) => {
        $then! {
            [$($given)*]
            { Wrap } = 0xA7, 0, "i32.wrap_i64";
            { Extend(Sign::Signed) } = 0xAC, 0, "i64.extend_i32_s";
            { Extend(Sign::Unsigned) } = 0xAD, 0, "i64.extend_i32_u";
        }
    };
}

// Goes through the sections that are named in brackets, and then makes the table of their rows.
macro_rules! of_sections {
    ([[$next:ident $($more:ident)*] $($done:tt)*] $({ $($form:tt)* } = $code:literal, $count:literal, $name:literal;)*) => {
        opcode_rows!($next of_sections [$($more)*] $($done)* $($code => $count,)*)
    };
    ([[] $($done:literal => $tag:literal,)*] $({ $($form:tt)* } = $code:literal, $count:literal, $name:literal;)*) => {
        Cases { rows: [$(Row { code: $done, tag: $tag },)* $(Row { code: $code, tag: $count },)*] }
    };
}

/// The opcodes of the instructions that are used, in their order. A tag counts the immediates.
pub fn opcodes() -> Cases<102>
    ensures { result.rows ≡ opcodes }
{
    opcode_rows!(control of_sections [delimiter plain load narrow_load store narrow_store constant test_32 comparison_32 test_64 comparison_64
        unary_32 binary_32 unary_64 binary_64 conversion])
}
