//! The tokens of a file (PHP manual, Basic syntax).
ghost use Rattle.std.specs.Prelude.{◌≡◌, ◌<◌, ◌^◌, length, IfOk, IfErr};
ghost use Rattle.hph_ast.specs.Tokens.{Reading, Lexes, beginning, SpellsTokens};
ghost use Rattle.hph_lex.specs.Readings.{IsFault, IsReading};

use crate::bytes::{ByteClass, after};
use crate::fault::LexFault;
use crate::found::Answer;
use crate::laws::one_reading;
use crate::place::place;
use crate::reader::Reader;
use hph_ast::Token;
use hph_scan::pieces_end;
use std::alloc::Global;

/// The tokens that the bytes of a file spell; or the first place where they spell none, and why. The errors are those of
/// `LexFault`, and memory may run out at any file.
pub fn tokens(alloc: Global, bytes: &[u8]) -> Result<Vec<Token>, LexFault>
    requires { length bytes.now < 2 ^ 32 }
    ensures spelled { IfOk result (λ tokens. SpellsTokens bytes.now tokens.items) }
    ensures fault { IfErr result (IsFault bytes.now) }
    // Nothing else is a reading of the file.
    ensures only { (reading : Reading) → Lexes beginning 0 bytes.now reading → IsReading result reading }
{
    one_reading();
    read(alloc, bytes)
}

/// The tokens of a file or its first fault.
fn read(alloc: Global, bytes: &[u8]) -> Result<Vec<Token>, LexFault>
    requires { length bytes.now < 2 ^ 32 }
    ensures spelled { IfOk result (λ tokens. SpellsTokens bytes.now tokens.items) }
    ensures fault { IfErr result (IsFault bytes.now) }
{
    pieces_end();
    let mut reader = Reader::new(alloc);
    while reader.at < bytes.len() {
        let rest = after(bytes, reader.at);
        if reader.is_in_code() && ByteClass::Whitespace.begins(rest) {
            reader.skip_byte();
        } else {
            match place(alloc, reader.mode, rest)? {
                Answer::Next(next) => reader.take(next)?,
                Answer::Bad(kind) => return Err(LexFault::Bad(kind, reader.at as u32)),
                Answer::Refused(which) => return Err(LexFault::Refused(which, reader.at as u32)),
            }
        }
    }
    reader.end()
}
