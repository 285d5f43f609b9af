//! Source text as tokens: tests of the lexer and of the scanners below it.
#![tactic(auto)]

#[cfg(test)]
mod names;
#[cfg(test)]
mod scans;
#[cfg(test)]
mod tokens;
