//! Parts of a string. No call takes memory.
ghost use Rattle.std.specs.Prelude.{◌≡◌, reverse};
ghost use Rattle.hph_ast.specs.Bytes.{behind};
ghost use Rattle.hph_php.specs.StringFunctions as php;

/// What stands behind a start, which counts from the end where it is negative, and begins no earlier than the string.
fn behind_start(bytes: &[u8], start: i64) -> &[u8]
    ensures { result.now ≡ php.behind_start bytes.now start }
{
    let size = bytes.len();
    let distance = start.unsigned_abs().min(size as u64) as usize;
    if start < 0 {
        &bytes[size - distance..]
    } else {
        &bytes[distance..]
    }
}

/// The front of this length, which leaves out as many bytes at the end where it is negative.
fn of_length(bytes: &[u8], length: i64) -> &[u8]
    ensures { result.now ≡ php.of_length bytes.now length }
{
    let size = bytes.len();
    let distance = length.unsigned_abs().min(size as u64) as usize;
    if length < 0 {
        &bytes[..size - distance]
    } else {
        &bytes[..distance]
    }
}

/// The bytes from a start on, all or of this length (`substr`).
pub fn part(bytes: &[u8], start: i64, length: Option<i64>) -> &[u8]
    ensures { result.now ≡ php.substr bytes.now start length }
{
    let rest = behind_start(bytes, start);
    match length {
        Some(length) => of_length(rest, length),
        None => rest,
    }
}

/// Whether a byte is a space, tab, LF, CR, 0 or VT.
fn is_trimmed(byte: u8) -> bool
    ensures { result ≡ php.is_trimmed byte }
{
    matches!(byte, b' ' | b'\t' | b'\n' | b'\r' | 0 | 11)
}

/// The bytes without those to be trimmed at the front.
fn without_front(bytes: &[u8]) -> &[u8]
    ensures { result.now ≡ behind php.is_trimmed bytes.now }
{
    let mut rest = bytes;
    'front: while let [first, after @ ..] = rest {
        if !is_trimmed(*first) {
            break;
        }
        rest = after;
    }
    rest
}

/// The bytes without those to be trimmed at the end.
fn without_end(bytes: &[u8]) -> &[u8]
    ensures { result.now ≡ reverse (behind php.is_trimmed (reverse bytes.now)) }
{
    let mut rest = bytes;
    'end: while let [before @ .., last] = rest {
        if !is_trimmed(*last) {
            break;
        }
        rest = before;
    }
    rest
}

/// The bytes without space, tab, LF, CR, 0 and VT at both ends (`trim`).
pub fn trimmed(bytes: &[u8]) -> &[u8]
    ensures { result.now ≡ php.trim bytes.now }
{
    without_end(without_front(bytes))
}
