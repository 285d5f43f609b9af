//! When a program may be lowered, told by folds over its trees as they are, with their sites numbered. What stands behind the
//! front end requires `IsLowerable` of specs/ and nothing else of a program.
//!
//! A well-formed program may be lowered: the tokens of a file tell of its tree (proofs/SpelledExpressions, SpelledStatements), and a
//! fold that doesn't look at the numbers of sites tells the same when they are numbered (proofs/Numbering, StatementNumbering).
#![tactic(auto)]

mod laws;

pub use laws::well_formed_is_lowerable;
