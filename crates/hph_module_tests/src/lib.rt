//! Tests of the validator of modules: a module is read from bytes, of which many come from text.
#![tactic(auto)]

#[cfg(test)]
mod faults;
#[cfg(test)]
mod instructions;
#[cfg(test)]
mod rows;
#[cfg(test)]
mod text;
#[cfg(test)]
mod verdicts;
#[cfg(test)]
mod words;
