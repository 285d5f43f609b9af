//! Marks, operators and casts (PHP manual, Operators and Type Juggling).
ghost use Rattle.std.specs.Prelude.{◌≡◌, ◌∷◌, ℕ, List, map};
ghost use Rattle.std.specs.Option.{option_map};
ghost use Rattle.hph_ast.specs.Marks.{mark_in, marks};
ghost use Rattle.hph_lex.specs.Tables.{row, marked};

use crate::bytes::begins;
use crate::spelled::Spelled;
use crate::spelled::Spelled::{Assign, Mark as Plain, Operator, Refused};
use hph_ast::{Assignment, Binary, Construct, Mark};

/// The longest mark, operator or refused construct with which the bytes begin, and its length.
pub fn mark(bytes: &[u8]) -> Option<(Spelled, usize)>
    ensures { option_map marked result ≡ mark_in marks bytes.now }
{
    match bytes {
        [] => None,
        [first, ..] => mark_in(marks_from(*first), bytes),
    }
}

/// The marks and operators that begin with a byte, and the constructs that begin like them, longer ones first.
fn marks_from(first: u8) -> &'static [(&'static [u8], Spelled)]
    // Bytes that begin with it begin with the same mark by these rows as by those of all marks.
    ensures { (rest : List ℕ) → mark_in (map row result.now) (first ∷ rest) ≡ mark_in marks (first ∷ rest) }
{
    match first {
        b'<' => &[
            (b"<<<", Refused(Construct::Heredoc)),
            (b"<=>", Operator(Binary::Spaceship)),
            (b"<<=", Assign(Assignment::ShiftLeft)),
            (b"<>", Operator(Binary::NotEqual)),
            (b"<=", Operator(Binary::LessEqual)),
            (b"<<", Operator(Binary::ShiftLeft)),
            (b"<", Operator(Binary::Less)),
        ],
        b'.' => &[
            (b"...", Refused(Construct::Variadic)),
            (b".=", Assign(Assignment::Concat)),
            (b".", Operator(Binary::Concat)),
        ],
        b'?' => &[
            (b"?->", Refused(Construct::NullSafe)),
            (b"??=", Assign(Assignment::Coalesce)),
            (b"??", Operator(Binary::Coalesce)),
            (b"?", Plain(Mark::Question)),
        ],
        b'=' => &[
            (b"===", Operator(Binary::Identical)),
            (b"=>", Plain(Mark::DoubleArrow)),
            (b"==", Operator(Binary::Equal)),
            (b"=", Assign(Assignment::Set)),
        ],
        b'!' => &[
            (b"!==", Operator(Binary::NotIdentical)),
            (b"!=", Operator(Binary::NotEqual)),
            (b"!", Plain(Mark::Exclamation)),
        ],
        b'*' => &[
            (b"**=", Assign(Assignment::Pow)),
            (b"**", Operator(Binary::Pow)),
            (b"*=", Assign(Assignment::Mul)),
            (b"*", Operator(Binary::Mul)),
        ],
        b'>' => &[
            (b">>=", Assign(Assignment::ShiftRight)),
            (b">=", Operator(Binary::GreaterEqual)),
            (b">>", Operator(Binary::ShiftRight)),
            (b">", Operator(Binary::Greater)),
        ],
        b'+' => &[
            (b"++", Plain(Mark::Increment)),
            (b"+=", Assign(Assignment::Add)),
            (b"+", Operator(Binary::Add)),
        ],
        b'-' => &[
            (b"--", Plain(Mark::Decrement)),
            (b"->", Plain(Mark::Arrow)),
            (b"-=", Assign(Assignment::Sub)),
            (b"-", Operator(Binary::Sub)),
        ],
        b':' => &[
            (b"::", Plain(Mark::DoubleColon)),
            (b":", Plain(Mark::Colon)),
        ],
        b'&' => &[
            (b"&&", Operator(Binary::BooleanAnd)),
            (b"&=", Assign(Assignment::BitAnd)),
            (b"&", Operator(Binary::BitAnd)),
        ],
        b'|' => &[
            (b"||", Operator(Binary::BooleanOr)),
            (b"|=", Assign(Assignment::BitOr)),
            (b"|", Operator(Binary::BitOr)),
        ],
        b'/' => &[
            (b"/=", Assign(Assignment::Div)),
            (b"/", Operator(Binary::Div)),
        ],
        b'%' => &[
            (b"%=", Assign(Assignment::Rem)),
            (b"%", Operator(Binary::Rem)),
        ],
        b'^' => &[
            (b"^=", Assign(Assignment::BitXor)),
            (b"^", Operator(Binary::BitXor)),
        ],
        b'#' => &[(b"#[", Refused(Construct::Attribute))],
        b'$' => &[
            (b"$$", Refused(Construct::VarVar)),
            (b"${", Refused(Construct::VarVar)),
        ],
        b'~' => &[(b"~", Plain(Mark::Tilde))],
        b'@' => &[(b"@", Plain(Mark::At))],
        b';' => &[(b";", Plain(Mark::Semicolon))],
        b',' => &[(b",", Plain(Mark::Comma))],
        b'(' => &[(b"(", Plain(Mark::OpenParen))],
        b')' => &[(b")", Plain(Mark::CloseParen))],
        b'[' => &[(b"[", Plain(Mark::OpenBracket))],
        b']' => &[(b"]", Plain(Mark::CloseBracket))],
        b'{' => &[(b"{", Plain(Mark::OpenBrace))],
        b'}' => &[(b"}", Plain(Mark::CloseBrace))],
        b'`' => &[(b"`", Refused(Construct::ShellExec))],
        b'\\' => &[(b"\\", Refused(Construct::Namespace))],
        _ => &[],
    }
}

/// The first row of a table with which the bytes begin, and the length of its text.
fn mark_in(table: &[(&[u8], Spelled)], bytes: &[u8]) -> Option<(Spelled, usize)>
    ensures { option_map marked result ≡ mark_in (map row table.now) bytes.now }
{
    for (text, spelled) in table {
        if begins(text, bytes) {
            return Some((*spelled, text.len()));
        }
    }
    None
}
