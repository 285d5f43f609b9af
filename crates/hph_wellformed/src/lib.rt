//! A program of a source tree is well-formed, where its names agree.
//!
//! Its tokens, and the bytes that they hold, are no more than its bytes (proofs/SourceTokens), and its numbers are ints of 64 bits
//! (proofs/SourceInts). What begins at an offset of a tree is no more than the tokens that begin there (proofs/CodePlaces,
//! DeclaredPlaces), and those are one at most (proofs/TokenPlaces); so places are apart (proofs/PlacesApart).
#![tactic(auto)]

mod laws;

pub use laws::sources_are_well_formed;
