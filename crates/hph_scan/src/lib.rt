//! Numbers and strings of PHP's source text: what is spelled where one begins (PHP manual, Integers and Strings).
//!
//! Each scanner takes the bytes from its place on, reads no more of them than it has to, and gives what they spell
//! and how many bytes that takes, or why there is none. It meets `IsNumber`, `Single` and `Piece` of the library of
//! tokens, in both directions; the laws in src/laws.rt say that these leave no choice.
#![tactic(auto)]

mod byte;
mod escape;
mod laws;
mod meaning;
mod number;
mod numeral;
mod piece;
mod single;

pub use laws::{
    number_or_none, one_number, one_piece, one_single_quoted, piece_or_none, pieces_end,
    single_quoted_ends, single_quoted_or_none,
};
pub use number::{Number, scan_number};
pub use piece::{QuotedPiece, scan_quoted_piece};
pub use single::{Quoted, scan_single_quoted};
