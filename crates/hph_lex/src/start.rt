//! What begins at a place in code (PHP manual, Basic syntax).
ghost use Rattle.std.specs.Prelude.{◌≡◌, ◌&&◌, ◌||◌, drop, codes};
ghost use Rattle.hph_ast.specs.Bytes.{begins, begins_with, is_letter, is_digit};
ghost use Rattle.hph_ast.specs.Lexical.{start_of};

use crate::bytes::{ByteClass, after, begins};
use crate::cast::cast;
use hph_ast::Start;

/// What begins with these bytes, by the first of them.
#[tactic(auto, unfolding(hph_ast::specs::Lexical::start_of))]
pub fn start(bytes: &[u8]) -> Start
    ensures { result ≡ start_of bytes.now }
{
    if ByteClass::Whitespace.begins(bytes) {
        Start::Whitespace
    } else if begins(b"?>", bytes) {
        Start::CloseTag
    } else if begins(b"#[", bytes) {
        Start::Other
    } else if begins(b"#", bytes) || begins(b"//", bytes) {
        Start::LineComment
    } else if begins(b"/*", bytes) {
        Start::BlockComment
    } else if ByteClass::Letter.begins(bytes) {
        Start::Name
    } else if begins_variable(bytes) {
        Start::Variable
    } else if begins_number(bytes) {
        Start::Number
    } else if begins(b"'", bytes) {
        Start::SingleQuote
    } else if begins(b"\"", bytes) {
        Start::DoubleQuote
    } else if cast(bytes).is_some() {
        Start::Cast
    } else {
        Start::Other
    }
}

/// Whether a `$` stands before what a name begins with.
pub fn begins_variable(bytes: &[u8]) -> bool
    ensures { result ≡ (begins (codes "$") bytes.now && begins_with is_letter (drop 1 bytes.now)) }
{
    begins(b"$", bytes) && ByteClass::Letter.begins(after(bytes, 1))
}

/// Whether a digit comes, or a dot before one.
fn begins_number(bytes: &[u8]) -> bool
    ensures { result ≡ (begins_with is_digit bytes.now || (begins (codes ".") bytes.now && begins_with is_digit (drop 1 bytes.now))) }
{
    ByteClass::Digit.begins(bytes)
        || (begins(b".", bytes) && ByteClass::Digit.begins(after(bytes, 1)))
}
