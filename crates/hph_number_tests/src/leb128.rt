//! Spellings from elsewhere: of the notes in the Core Specification 1.0, 5.2.2, of Wikipedia's page on LEB128 (624485
//! and -123456), and bounds worked out by hand.
use hph_leb::{get_i32, get_i64, get_u32, put_i32, put_i64, put_u32};
use std::test::Fail;

#[test]
fn writes_numbers_in_their_fewest_bytes(rt: HostRuntime) -> Result<(), Fail> {
    let unsigned: [(u32, &[u8]); 5] = [
        (0, &[0x00]),
        (127, &[0x7F]),
        (128, &[0x80, 0x01]),
        (624485, &[0xE5, 0x8E, 0x26]),
        (u32::MAX, &[0xFF, 0xFF, 0xFF, 0xFF, 0x0F]),
    ];
    for (value, bytes) in unsigned {
        let mut out = Vec::new(rt.alloc());
        put_u32(&mut out, value)?;
        assert_eq!(rt; out.as_slice(), bytes, "at {value}");
    }
    let signed: [(i32, &[u8]); 7] = [
        (63, &[0x3F]),
        (64, &[0xC0, 0x00]),
        (-64, &[0x40]),
        (-65, &[0xBF, 0x7F]),
        (-123456, &[0xC0, 0xBB, 0x78]),
        (i32::MAX, &[0xFF, 0xFF, 0xFF, 0xFF, 0x07]),
        (i32::MIN, &[0x80, 0x80, 0x80, 0x80, 0x78]),
    ];
    for (value, bytes) in signed {
        let mut out = Vec::new(rt.alloc());
        put_i32(&mut out, value)?;
        assert_eq!(rt; out.as_slice(), bytes, "at {value}");
    }
    Ok(())
}

const GREATEST_I64: [u8; 10] = [0xFF, 0xFF, 0xFF, 0xFF, 0xFF, 0xFF, 0xFF, 0xFF, 0xFF, 0x00];

const LEAST_I64: [u8; 10] = [0x80, 0x80, 0x80, 0x80, 0x80, 0x80, 0x80, 0x80, 0x80, 0x7F];

#[test]
fn writes_and_reads_the_bounds_of_64_bits(rt: HostRuntime) -> Result<(), Fail> {
    let mut out = Vec::new(rt.alloc());
    put_i64(&mut out, i64::MAX)?;
    assert_eq!(rt; out.as_slice(), GREATEST_I64.as_slice());
    put_i64(&mut out, i64::MIN)?;
    assert_eq!(rt; get_i64(out.as_slice(), 0), Some((i64::MAX, 10)));
    assert_eq!(rt; get_i64(out.as_slice(), 10), Some((i64::MIN, 10)));
    assert_eq!(rt; get_i64(LEAST_I64.as_slice(), 0), Some((i64::MIN, 10)));
    Ok(())
}

#[test]
fn reads_longer_spellings(rt: HostRuntime) {
    assert_eq!(rt; get_u32(&[0x80, 0x00], 0), Some((0, 2)));
    assert_eq!(rt; get_u32(&[0x03], 0), Some((3, 1)));
    assert_eq!(rt; get_u32(&[0x83, 0x00], 0), Some((3, 2)));
    assert_eq!(rt; get_i32(&[0x7E], 0), Some((-2, 1)));
    assert_eq!(rt; get_i32(&[0xFE, 0x7F], 0), Some((-2, 2)));
    assert_eq!(rt; get_i32(&[0xFE, 0xFF, 0x7F], 0), Some((-2, 3)));
}

#[test]
fn reads_where_it_is_told(rt: HostRuntime) {
    let bytes = [0x07, 0xE5, 0x8E, 0x26, 0xC0, 0xBB, 0x78, 0x80];
    assert_eq!(rt; get_u32(&bytes, 1), Some((624485, 3)));
    assert_eq!(rt; get_i32(&bytes, 4), Some((-123456, 3)));
    assert_eq!(rt; get_u32(&bytes, 7), None, "the last byte asks for another");
    assert_eq!(rt; get_u32(&bytes, 8), None, "no byte is left");
    assert_eq!(rt; get_i64(&bytes, usize::MAX), None, "past the end");
}

#[test]
fn refuses_unused_bits_and_a_sixth_byte(rt: HostRuntime) {
    assert_eq!(rt; get_u32(&[0x80, 0x80, 0x80, 0x80, 0x10], 0), None);
    assert_eq!(rt; get_u32(&[0x80, 0x80, 0x80, 0x80, 0x80, 0x00], 0), None);
    assert_eq!(rt; get_i32(&[0x80, 0x80, 0x80, 0x80, 0x70], 0), None);
    assert_eq!(rt; get_i32(&[0xFF, 0xFF, 0xFF, 0xFF, 0x0F], 0), None);
    assert_eq!(rt; get_i32(&[0xFF, 0xFF, 0xFF, 0xFF, 0x7F], 0), Some((-1, 5)));
}
