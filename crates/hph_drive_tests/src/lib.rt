//! Tests of the program's top call, which cross all libraries below it, and of the trees and sinks that it works on.
#![tactic(auto)]

#[cfg(test)]
mod builds;
#[cfg(test)]
mod lines;
#[cfg(test)]
mod surroundings;
