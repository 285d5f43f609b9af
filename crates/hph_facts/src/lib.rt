//! Small programs and what they print, computed by the definitions of the language.
//!
//! Each file of `proofs` that is named after a group of rules has a few programs of it. Their facts say what a program prints,
//! how it ends, and the least number of units with which it ends. A tree's meaning is put together from the meanings of its
//! nodes (KnownExpressions, KnownStatements, KnownPrograms), so that it is computed.
#![tactic(auto)]
