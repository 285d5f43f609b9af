use hph_num::NumFault::{DivZero, NegativeShift, NotWhole, Overflow};
use hph_num::{add, div, mul, mul_overflows, neg, pow, rem, shl, shr, sub};

#[test]
fn adds_and_subtracts_within_64_bits(rt: HostRuntime) {
    assert_eq!(rt; add(20, 22), Ok(42));
    assert_eq!(rt; add(i64::MAX, i64::MIN), Ok(-1));
    assert_eq!(rt; add(i64::MAX, 1), Err(Overflow));
    assert_eq!(rt; sub(20, 22), Ok(-2));
    assert_eq!(rt; sub(-1, i64::MIN), Ok(i64::MAX));
    assert_eq!(rt; sub(0, i64::MIN), Err(Overflow));
    assert_eq!(rt; neg(i64::MAX), Ok(-i64::MAX));
    assert_eq!(rt; neg(i64::MIN), Err(Overflow));
}

#[test]
fn finds_products_past_64_bits(rt: HostRuntime) {
    for (a, b, product) in [
        (3037000499, 3037000499, Ok(9223372030926249001)),
        (3037000500, 3037000500, Err(Overflow)),
        (4294967296, -2147483648, Ok(i64::MIN)),
        (4294967296, 2147483648, Err(Overflow)),
        (i64::MIN, 1, Ok(i64::MIN)),
        (-1, i64::MIN, Err(Overflow)),
        (0, i64::MIN, Ok(0)),
    ] {
        assert_eq!(rt; mul(a, b), product, "{a} * {b}");
        assert_eq!(rt; mul_overflows(a, b), product.is_err(), "{a} * {b}");
    }
}

#[test]
fn raises_to_powers(rt: HostRuntime) {
    for (a, b, power) in [
        (0, 0, Ok(1)),
        (0, i64::MAX, Ok(0)),
        (1, i64::MAX, Ok(1)),
        (-1, i64::MAX, Ok(-1)),
        (2, 62, Ok(4611686018427387904)),
        (2, 63, Err(Overflow)),
        (-2, 63, Ok(i64::MIN)),
        (-2, 64, Err(Overflow)),
        (3, 39, Ok(4052555153018976267)),
        (3, 40, Err(Overflow)),
        (10, 18, Ok(1000000000000000000)),
        (10, 19, Err(Overflow)),
        (-7, 3, Ok(-343)),
        (2, -1, Err(NotWhole)),
    ] {
        assert_eq!(rt; pow(a, b), power, "{a} ** {b}");
    }
}

#[test]
fn divides_without_rounding(rt: HostRuntime) {
    for (a, b, quotient) in [
        (42, 7, Ok(6)),
        (-42, 7, Ok(-6)),
        (42, -7, Ok(-6)),
        (i64::MIN, 2, Ok(-4611686018427387904)),
        (i64::MAX, -1, Ok(-9223372036854775807)),
        (i64::MIN, -1, Err(Overflow)),
        (7, 2, Err(NotWhole)),
        (-7, 2, Err(NotWhole)),
        (1, 0, Err(DivZero)),
    ] {
        assert_eq!(rt; div(a, b), quotient, "{a} / {b}");
    }
}

#[test]
fn keeps_the_sign_of_the_dividend_in_remainders(rt: HostRuntime) {
    for (a, b, remainder) in [
        (7, 3, Ok(1)),
        (7, -3, Ok(1)),
        (-7, 3, Ok(-1)),
        (-7, -3, Ok(-1)),
        (i64::MIN, -1, Ok(0)),
        (i64::MIN, 3, Ok(-2)),
        (i64::MAX, -2, Ok(1)),
        (5, 0, Err(DivZero)),
    ] {
        assert_eq!(rt; rem(a, b), remainder, "{a} % {b}");
    }
}

#[test]
fn shifts_every_bit_out(rt: HostRuntime) {
    for (a, count, left, right) in [
        (1, 0, Ok(1), Ok(1)),
        (3, 63, Ok(i64::MIN), Ok(0)),
        (-1, 63, Ok(i64::MIN), Ok(-1)),
        (-1, 64, Ok(0), Ok(-1)),
        (5, i64::MAX, Ok(0), Ok(0)),
        (-3, 2, Ok(-12), Ok(-1)),
        (i64::MIN, 1, Ok(0), Ok(-4611686018427387904)),
        (1, -1, Err(NegativeShift), Err(NegativeShift)),
    ] {
        assert_eq!(rt; shl(a, count), left, "{a} << {count}");
        assert_eq!(rt; shr(a, count), right, "{a} >> {count}");
    }
}
