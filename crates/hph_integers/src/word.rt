//! Operators on 32 bits.
ghost use Rattle.std.specs.Prelude.{◌≡◌, ◌<◌, ◌≤◌, ◌^◌};
ghost use Rattle.hph_wasm.specs.Integers.{unary, binary, comparison, less, quotient, remainder, shifted_right, rotated_left, wrapped, extended};

use hph_wasm::{Binary, Comparison, Sign, Unary};

/// An operator on one number.
#[tactic(auto, unfolding(hph_wasm::specs::Integers::unary))]
pub fn unary_i32(o: Unary, i: u32) -> u32
    ensures { result ≡ unary o 32 i }
{
    match o {
        Unary::Clz => i.leading_zeros(),
        Unary::Ctz => i.trailing_zeros(),
        Unary::Popcnt => i.count_ones(),
    }
}

/// Whether a number is less than another.
#[tactic(auto, unfolding(hph_wasm::specs::Integers::less))]
fn less_i32(sign: Sign, i: u32, j: u32) -> bool
    ensures { result ≡ less sign 32 i j }
{
    match sign {
        Sign::Unsigned => i < j,
        Sign::Signed => i.cast_signed() < j.cast_signed(),
    }
}

/// A comparison.
#[tactic(auto, unfolding(hph_wasm::specs::Integers::comparison))]
pub fn comparison_i32(o: Comparison, i: u32, j: u32) -> bool
    ensures { result ≡ comparison o 32 i j }
{
    match o {
        Comparison::Eq => i == j,
        Comparison::Ne => i != j,
        Comparison::Lt(sign) => less_i32(sign, i, j),
        Comparison::Gt(sign) => less_i32(sign, j, i),
        Comparison::Le(sign) => !less_i32(sign, j, i),
        Comparison::Ge(sign) => !less_i32(sign, i, j),
    }
}

/// A quotient, rounded towards zero.
#[tactic(auto, unfolding(hph_wasm::specs::Integers::quotient))]
fn quotient_i32(sign: Sign, i: u32, j: u32) -> Option<u32>
    ensures { result ≡ quotient sign 32 i j }
{
    if j == 0 {
        return None;
    }
    match sign {
        Sign::Unsigned => Some(i / j),
        Sign::Signed => match i.cast_signed().checked_div(j.cast_signed()) {
            None => None,
            Some(q) => Some(q.cast_unsigned()),
        },
    }
}

/// A remainder, with the sign of the dividend.
#[tactic(auto)]
fn remainder_i32(sign: Sign, i: u32, j: u32) -> Option<u32>
    ensures { result ≡ remainder sign 32 i j }
{
    if j == 0 {
        return None;
    }
    match sign {
        Sign::Unsigned => Some(i % j),
        Sign::Signed => Some(
            i.cast_signed()
                .wrapping_rem(j.cast_signed())
                .cast_unsigned(),
        ),
    }
}

/// A shift to the right, by fewer bits than there are.
#[tactic(auto)]
fn shifted_right_i32(sign: Sign, i: u32, k: u32) -> u32
    requires { k < 32 }
    ensures { result ≡ shifted_right sign 32 i k }
{
    match sign {
        Sign::Unsigned => i >> k,
        Sign::Signed => (i.cast_signed() >> k).cast_unsigned(),
    }
}

/// A rotation to the left, by fewer bits than there are.
#[tactic(auto)]
fn rotated_left_i32(i: u32, k: u32) -> u32
    requires { k < 32 }
    ensures { result ≡ rotated_left 32 i k }
{
    if k == 0 { i } else { i.rotate_left(k) }
}

/// An operator on two numbers.
#[tactic(auto, unfolding(hph_wasm::specs::Integers::binary))]
pub fn binary_i32(o: Binary, i: u32, j: u32) -> Option<u32>
    ensures { result ≡ binary o 32 i j }
{
    match o {
        Binary::Add => Some(i.wrapping_add(j)),
        Binary::Sub => Some(i.wrapping_sub(j)),
        Binary::Mul => Some(i.wrapping_mul(j)),
        Binary::Div(sign) => quotient_i32(sign, i, j),
        Binary::Rem(sign) => remainder_i32(sign, i, j),
        Binary::And => Some(i & j),
        Binary::Or => Some(i | j),
        Binary::Xor => Some(i ^ j),
        Binary::Shl => Some(i.wrapping_shl(j)),
        Binary::Shr(sign) => Some(shifted_right_i32(sign, i, j % 32)),
        Binary::Rotl => Some(rotated_left_i32(i, j % 32)),
        Binary::Rotr => Some(rotated_left_i32(i, (32 - j % 32) % 32)),
    }
}

/// The lowest 32 bits.
#[tactic(auto, unfolding(hph_wasm::specs::Integers::wrapped))]
pub fn wrapped_i32(i: u64) -> u32
    ensures { result ≡ wrapped 32 i }
{
    (i % 4294967296) as u32
}

/// A number of fewer bits as one of 32 bits.
#[tactic(auto, unfolding(hph_wasm::specs::Integers::extended))]
pub fn extended_i32(sign: Sign, bits: u32, i: u32) -> u32
    requires some { 0 < bits }
    requires few { bits < 32 }
    requires within { i < 2 ^ bits }
    ensures { result ≡ extended sign bits 32 i }
{
    match sign {
        Sign::Unsigned => i,
        Sign::Signed => {
            if i < 1 << (bits - 1) {
                i
            } else {
                i.wrapping_sub(1 << bits)
            }
        }
    }
}
