//! Definitions that typing goes by, told of a program's trees: its scopes, the names that are steady, the cells that have a type, and
//! which variables are assigned wherever they are read. No code yet.
#![tactic(auto)]
