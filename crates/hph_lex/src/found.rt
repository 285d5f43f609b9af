//! What comes at one place of a file.
ghost use Rattle.std.specs.Prelude.{◌≡◌, ℕ};
ghost use Rattle.hph_ast.specs.Lexical.{gives, skips};
ghost use Rattle.hph_lex.specs.Answers.{answer, turn_told};

use hph_ast::{Construct, Kind, LexKind, Mode};
use sqlite_items::Items;

/// What the bytes behind a place are read as.
#[derive(Clone, Copy, PartialEq, Eq)]
pub enum Turn {
    Goes(Mode),
    /// Code inside braces, and the mode for what stands behind them.
    Enters(Mode),
    /// What stands behind the braces.
    Leaves,
}

/// The key of an element in a string, and how many bytes it takes.
#[derive(Drop)]
pub struct Key {
    pub kind: Kind,
    pub length: usize,
}

/// What follows a variable in a string.
#[derive(Drop)]
pub enum Behind {
    Alone,
    /// `[`, a key and `]`.
    Key(Key),
    /// `->` and a name.
    Property(Items<u8>),
}

/// The tokens of a place.
#[derive(Drop)]
pub enum Found {
    Skipped,
    Token(Kind),
    /// A variable in a string, and what follows it.
    Interpolated { name: Items<u8>, behind: Behind },
}

/// The tokens of a place, how many bytes they take, and what the bytes behind them are read as.
#[derive(Drop)]
pub struct Next {
    pub found: Found,
    pub length: usize,
    pub turn: Turn,
}

/// What comes at a place: tokens, what is skipped, or why there is neither.
#[derive(Drop)]
pub enum Answer {
    Next(Next),
    Bad(LexKind),
    Refused(Construct),
}

/// One token.
pub fn token(kind: Kind, length: usize, turn: Turn) -> Answer
    ensures { (at : ℕ) → answer at result ≡ gives at length kind (turn_told turn) }
{
    Answer::Next(Next {
        found: Found::Token(kind),
        length,
        turn,
    })
}

/// Bytes that are skipped.
pub fn skipped(length: usize, mode: Mode) -> Answer
    ensures { (at : ℕ) → answer at result ≡ skips length mode }
{
    Answer::Next(Next {
        found: Found::Skipped,
        length,
        turn: Turn::Goes(mode),
    })
}
