//! Operators on 64 bits.
ghost use Rattle.std.specs.Prelude.{◌≡◌, ◌<◌, ◌≤◌, ◌^◌};
ghost use Rattle.hph_wasm.specs.Integers.{unary, binary, comparison, less, quotient, remainder, shifted_right, rotated_left, wrapped, extended};

use hph_wasm::{Binary, Comparison, Sign, Unary};

/// An operator on one number.
#[tactic(auto, unfolding(hph_wasm::specs::Integers::unary))]
pub fn unary_i64(o: Unary, i: u64) -> u64
    ensures { result ≡ unary o 64 i }
{
    match o {
        Unary::Clz => u64::from(i.leading_zeros()),
        Unary::Ctz => u64::from(i.trailing_zeros()),
        Unary::Popcnt => u64::from(i.count_ones()),
    }
}

/// Whether a number is less than another.
#[tactic(auto, unfolding(hph_wasm::specs::Integers::less))]
fn less_i64(sign: Sign, i: u64, j: u64) -> bool
    ensures { result ≡ less sign 64 i j }
{
    match sign {
        Sign::Unsigned => i < j,
        Sign::Signed => i.cast_signed() < j.cast_signed(),
    }
}

/// A comparison.
#[tactic(auto, unfolding(hph_wasm::specs::Integers::comparison))]
pub fn comparison_i64(o: Comparison, i: u64, j: u64) -> bool
    ensures { result ≡ comparison o 64 i j }
{
    match o {
        Comparison::Eq => i == j,
        Comparison::Ne => i != j,
        Comparison::Lt(sign) => less_i64(sign, i, j),
        Comparison::Gt(sign) => less_i64(sign, j, i),
        Comparison::Le(sign) => !less_i64(sign, j, i),
        Comparison::Ge(sign) => !less_i64(sign, i, j),
    }
}

/// A quotient, rounded towards zero.
#[tactic(auto, unfolding(hph_wasm::specs::Integers::quotient))]
fn quotient_i64(sign: Sign, i: u64, j: u64) -> Option<u64>
    ensures { result ≡ quotient sign 64 i j }
{
    if j == 0 {
        return None;
    }
    match sign {
        Sign::Unsigned => Some(i / j),
        Sign::Signed => match i.cast_signed().checked_div(j.cast_signed()) {
            None => None,
            Some(q) => Some(q.cast_unsigned()),
        },
    }
}

/// A remainder, with the sign of the dividend.
#[tactic(auto)]
fn remainder_i64(sign: Sign, i: u64, j: u64) -> Option<u64>
    ensures { result ≡ remainder sign 64 i j }
{
    if j == 0 {
        return None;
    }
    match sign {
        Sign::Unsigned => Some(i % j),
        Sign::Signed => Some(
            i.cast_signed()
                .wrapping_rem(j.cast_signed())
                .cast_unsigned(),
        ),
    }
}

/// A shift to the right, by fewer bits than there are.
#[tactic(auto)]
fn shifted_right_i64(sign: Sign, i: u64, k: u32) -> u64
    requires { k < 64 }
    ensures { result ≡ shifted_right sign 64 i k }
{
    match sign {
        Sign::Unsigned => i >> k,
        Sign::Signed => (i.cast_signed() >> k).cast_unsigned(),
    }
}

/// A rotation to the left, by fewer bits than there are.
#[tactic(auto)]
fn rotated_left_i64(i: u64, k: u32) -> u64
    requires { k < 64 }
    ensures { result ≡ rotated_left 64 i k }
{
    if k == 0 { i } else { i.rotate_left(k) }
}

/// An operator on two numbers.
#[tactic(auto, unfolding(hph_wasm::specs::Integers::binary))]
pub fn binary_i64(o: Binary, i: u64, j: u64) -> Option<u64>
    ensures { result ≡ binary o 64 i j }
{
    match o {
        Binary::Add => Some(i.wrapping_add(j)),
        Binary::Sub => Some(i.wrapping_sub(j)),
        Binary::Mul => Some(i.wrapping_mul(j)),
        Binary::Div(sign) => quotient_i64(sign, i, j),
        Binary::Rem(sign) => remainder_i64(sign, i, j),
        Binary::And => Some(i & j),
        Binary::Or => Some(i | j),
        Binary::Xor => Some(i ^ j),
        Binary::Shl => Some(i << (j % 64) as u32),
        Binary::Shr(sign) => Some(shifted_right_i64(sign, i, (j % 64) as u32)),
        Binary::Rotl => Some(rotated_left_i64(i, (j % 64) as u32)),
        Binary::Rotr => Some(rotated_left_i64(i, ((64 - j % 64) % 64) as u32)),
    }
}

/// A number of fewer bits as one of 64 bits.
#[tactic(auto, unfolding(hph_wasm::specs::Integers::extended))]
pub fn extended_i64(sign: Sign, bits: u32, i: u64) -> u64
    requires some { 0 < bits }
    requires few { bits < 64 }
    requires within { i < 2 ^ bits }
    ensures { result ≡ extended sign bits 64 i }
{
    match sign {
        Sign::Unsigned => i,
        Sign::Signed => {
            if i < 1 << (bits - 1) {
                i
            } else {
                i.wrapping_sub(1 << bits)
            }
        }
    }
}
