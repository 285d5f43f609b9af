//! How large what a file prints is against its bytes and its tree, as the layout of a module needs it.
//!
//! The laws are the contracts of the functions in src/laws.rt. proofs/Weights.antt says what each token may give to print;
//! proofs/Places.antt bounds that by the bytes of the token, and proofs/Texts.antt adds up what the statements of a file print.
#![tactic(auto)]

mod laws;

pub use laws::{texts_are_nodes, texts_are_short};
