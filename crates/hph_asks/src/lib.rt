//! What each scope of a program asks of its cells, by the types of its expressions, and what it reads; scopes that are plain. No code yet.
#![tactic(auto)]
