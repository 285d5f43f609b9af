//! What holds of every file's bytes: contracts of functions that do nothing (PHP manual, Basic syntax).
ghost use Rattle.std.specs.Prelude.{◌≡◌, ◌≤◌, ℕ, true, List, length, Contains, Some, Result, Ok, Err};
ghost use Rattle.hph_ast.specs.declared.token.Kind.{Kind};
ghost use Rattle.hph_ast.specs.declared.token.Token.{Token};
ghost use Rattle.hph_ast.specs.declared.refusal.Construct.{Construct};
ghost use Rattle.hph_ast.specs.Bytes.{begins};
ghost use Rattle.hph_ast.specs.Lexical.{Fault};
ghost use Rattle.hph_ast.specs.Marks.{marks, mark_in};
ghost use Rattle.hph_ast.specs.Tokens.{State, Reading, Lexes, beginning, SpellsTokens, FailsAt};

use hph_scan::{
    number_or_none, one_number, one_piece, one_single_quoted, piece_or_none, pieces_end,
    single_quoted_or_none,
};

/// Bytes have one reading: a file spells one list of tokens at most, or has one first fault, and never both.
pub fn one_reading()
    ensures reading { (state : State) (at : ℕ) (bs : List ℕ) (x y : Reading) → Lexes state at bs x → Lexes state at bs y → x ≡ y }
    ensures tokens { (bytes : List ℕ) (ts us : List Token) → SpellsTokens bytes ts → SpellsTokens bytes us → ts ≡ us }
    ensures fault { (bytes : List ℕ) (why other : Fault) (at place : ℕ) → FailsAt bytes why at → FailsAt bytes other place
        → (why ≡ other) × (at ≡ place) }
    ensures never_both { (bytes : List ℕ) (ts : List Token) (why : Fault) (at : ℕ) → SpellsTokens bytes ts → FailsAt bytes why at → ⊥ }
{
    one_number();
    one_single_quoted();
    one_piece();
}

/// Every file has a reading.
pub fn every_file_is_read()
    ensures { (bytes : List ℕ) → (reading : Reading) × Lexes beginning 0 bytes reading }
{
    number_or_none();
    single_quoted_or_none();
    piece_or_none();
    pieces_end();
}

/// The first row of the marks with which bytes begin is the longest: each other row that fits has no more bytes.
pub fn first_mark_is_longest()
    ensures { (bs : List ℕ) (what : Result Kind Construct) (n : ℕ) (row : List ℕ × Result Kind Construct)
        → mark_in marks bs ≡ Some (what, n) → Contains marks row → begins row.0 bs ≡ true → length row.0 ≤ n }
{}
