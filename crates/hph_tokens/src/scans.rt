//! What PHP 8.2 reads, in texts as its own `echo` prints them; which digits are faults, and what is left of a piece, is
//! this project's own.
use hph_scan::{Number, QuotedPiece, scan_number, scan_quoted_piece, scan_single_quoted};
use std::alloc::Global;
use std::process::Abort;
use std::test::Fail;

// What is spelled, its value, and how many bytes spell it.
static WHOLE_NUMBERS: [(&[u8], u64, usize); 20] = [
    (b"0;", 0, 1),
    (b"0x1F", 31, 4),
    (b"0X1f+", 31, 4),
    (b"0b101", 5, 5),
    (b"0o17", 15, 4),
    (b"0O17", 15, 4),
    (b"017", 15, 3),
    (b"0_7", 7, 3),
    (b"1_000", 1000, 5),
    (b"0x1_F", 31, 5),
    (b"12abc", 12, 2),
    (b"1e", 1, 1),
    (b"1e+", 1, 1),
    (b"0x1.5", 1, 3),
    (b"0b1e3", 1, 3),
    (b"9223372036854775807", 9223372036854775807, 19),
    (b"0x7FFFFFFFFFFFFFFF", 9223372036854775807, 18),
    (b"0777777777777777777777", 9223372036854775807, 22),
    (b"000000000000000000000000000000000017", 15, 36),
    (b"1 .5", 1, 1),
];

static FLOATS: [&[u8]; 12] = [
    b"1.5",
    b"1.",
    b".5",
    b"1e3",
    b"1E-3",
    b"08.5",
    b"1_0.5",
    b"9223372036854775808",
    b"0x8000000000000000",
    b"18446744073709551616",
    b"18446744073709551617",
    b"9999999999999999999999999999999999999999999999999999999999999999999999999999999999999999999999999999",
];

static BAD_NUMBERS: [&[u8]; 9] = [
    b"08",
    b"019",
    b"1_",
    b"1__0",
    b"0x",
    b"0b2",
    b"0o8",
    b"1_.5",
    b"99999999999999999999_",
];

fn is_whole(rt: &impl Abort, source: &[u8], value: u64, length: usize) {
    assert_eq!(rt;
        scan_number(source),
        Number::Whole { value, length },
        "of {source:?}"
    );
}

#[test]
fn reads_whole_numbers(rt: HostRuntime) {
    for (source, value, length) in WHOLE_NUMBERS {
        is_whole(&rt, source, value, length);
    }
}

#[test]
fn tells_floats_and_faults(rt: HostRuntime) {
    for source in FLOATS {
        assert_eq!(rt; scan_number(source), Number::Float, "of {source:?}");
    }
    for source in BAD_NUMBERS {
        assert_eq!(rt; scan_number(source), Number::Bad, "of {source:?}");
    }
}

// What stands behind the opening quote, the text, and how many bytes spell it with the closing quote.
static SINGLE_QUOTED: [(&[u8], &[u8], usize); 7] = [
    (b"'", b"", 1),
    (b"a';", b"a", 2),
    (b"a\\'b'", b"a'b", 5),
    (b"\\\\'x", b"\\", 3),
    (b"\\n'", b"\\n", 3),
    (b"\\\"$x{'", b"\\\"$x{", 6),
    (b"\\\\\\'\xFF'", b"\\'\xFF", 6),
];

fn is_single_quoted(
    rt: &impl Abort,
    alloc: Global,
    source: &[u8],
    text: &[u8],
    length: usize,
) -> Result<(), Fail> {
    let found = scan_single_quoted(alloc, source)?.ok_or("not closed")?;
    assert_eq!(rt; found.text.as_slice(), text, "of {source:?}");
    assert_eq!(rt; found.length, length, "of {source:?}");
    Ok(())
}

#[test]
fn reads_strings_in_single_quotes(rt: HostRuntime) -> Result<(), Fail> {
    for (source, text, length) in SINGLE_QUOTED {
        is_single_quoted(&rt, rt.alloc(), source, text, length)?;
    }
    assert!(rt; scan_single_quoted(rt.alloc(), b"")?.is_none());
    assert!(rt; scan_single_quoted(rt.alloc(), b"ab\\'")?.is_none());
    Ok(())
}

// What stands where a piece begins, its text, and how many bytes spell it.
static PIECES: [(&[u8], &[u8], usize); 42] = [
    (b"\"", b"", 0),
    (b"ab\"c", b"ab", 2),
    (b"\\n\"", b"\n", 2),
    (b"\\t\"", b"\t", 2),
    (b"\\r\"", b"\r", 2),
    (b"\\v\"", b"\x0B", 2),
    (b"\\e\"", b"\x1B", 2),
    (b"\\f\"", b"\x0C", 2),
    (b"\\\\\"", b"\\", 2),
    (b"\\$x\"", b"$x", 3),
    (b"\\\"\"", b"\"", 2),
    (b"\\'\"", b"\\'", 2),
    (b"\\q\"", b"\\q", 2),
    (b"\\{x\"", b"\\{x", 3),
    (b"\\{$x}\"", b"\\{", 2),
    (b"\\1\"", b"\x01", 2),
    (b"\\12\"", b"\n", 3),
    (b"\\101\"", b"A", 4),
    (b"\\1234\"", b"S4", 5),
    (b"\\400\"", b"\x00", 4),
    (b"\\777\"", b"\xFF", 4),
    (b"\\8\"", b"\\8", 2),
    (b"\\x4\"", b"\x04", 3),
    (b"\\x414\"", b"A4", 5),
    (b"\\xg\"", b"\\xg", 3),
    (b"\\u\"", b"\\u", 2),
    (b"\\u0041\"", b"\\u0041", 6),
    (b"\\u{0}\"", b"\x00", 5),
    (b"\\u{7F}\"", b"\x7F", 6),
    (b"\\u{80}\"", b"\xC2\x80", 6),
    (b"\\u{7FF}\"", b"\xDF\xBF", 7),
    (b"\\u{800}\"", b"\xE0\xA0\x80", 7),
    (b"\\u{D800}\"", b"\xED\xA0\x80", 8),
    (b"\\u{DFFF}\"", b"\xED\xBF\xBF", 8),
    (b"\\u{FFFF}\"", b"\xEF\xBF\xBF", 8),
    (b"\\u{10000}\"", b"\xF0\x90\x80\x80", 9),
    (b"\\u{10FFFF}\"", b"\xF4\x8F\xBF\xBF", 10),
    (b"\\u{000000000000000041}\"", b"A", 22),
    (b"a$x\"", b"a", 1),
    (b"a{$x\"", b"a", 1),
    (b"a${x\"", b"a", 1),
    (b"$1{x$ \"", b"$1{x$ ", 6),
];

fn is_piece(
    rt: &impl Abort,
    alloc: Global,
    source: &[u8],
    text: &[u8],
    length: usize,
) -> Result<(), Fail> {
    let QuotedPiece::Text(found) = scan_quoted_piece(alloc, source)? else {
        return Err(Fail::new("no text"));
    };
    assert_eq!(rt; found.text.as_slice(), text, "of {source:?}");
    assert_eq!(rt; found.length, length, "of {source:?}");
    Ok(())
}

#[test]
fn reads_pieces_of_strings_in_double_quotes(rt: HostRuntime) -> Result<(), Fail> {
    for (source, text, length) in PIECES {
        is_piece(&rt, rt.alloc(), source, text, length)?;
    }
    Ok(())
}

static BAD_ESCAPES: [&[u8]; 6] = [
    b"\\u{110000}\"",
    b"\\u{}\"",
    b"\\u{$x}\"",
    b"\\u{41\"",
    b"\\u{99999999999999999999}\"",
    b"a\\u{}b\\n\"",
];

static UNCLOSED: [&[u8]; 5] = [b"", b"ab", b"\\\"", b"\\u{}", b"a\\"];

#[test]
fn tells_wrong_escapes_and_unclosed_pieces(rt: HostRuntime) -> Result<(), Fail> {
    for source in BAD_ESCAPES {
        let found = scan_quoted_piece(rt.alloc(), source)?;
        assert!(rt; matches!(found, QuotedPiece::BadEscape), "of {source:?}");
    }
    for source in UNCLOSED {
        let found = scan_quoted_piece(rt.alloc(), source)?;
        assert!(rt; matches!(found, QuotedPiece::Unclosed), "of {source:?}");
    }
    Ok(())
}
