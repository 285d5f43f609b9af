//! Paths, lists of values and built-in functions: how code that takes several items does what a part of a program means.
#![tactic(auto)]
