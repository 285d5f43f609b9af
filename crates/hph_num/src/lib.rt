//! Exact whole-number arithmetic within 64 bits, as PHP's integer operators have it.
//!
//! Each call answers the number that specs/ defines over all whole numbers, or the one fault for which there is none:
//! a result past 64 bits, a divisor of 0, a negative shift, a result that is no whole number. Nothing wraps or rounds.
//! Contracts are equations with those definitions (specs/Arithmetic.antt, specs/Shifts.antt). No call takes memory.
#![tactic(auto)]

mod fault;
mod products;
mod quotients;
mod shifts;
mod sums;

pub use fault::NumFault;
pub use products::{mul, mul_overflows, pow};
pub use quotients::{div, rem};
pub use shifts::{shl, shr};
pub use sums::{add, neg, sub};
