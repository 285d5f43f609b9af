//! Byte strings, keys and arrays: the values of a program that hold other values.
//!
//! `OrdMap` is PHP's array: pairs of distinct keys and values in order, and the key of the next
//! append. It meets the operations of specs/Array.antt, and after a refusal it is unchanged.
//! A value type may contain itself through it and through `Shared`, by specs/formers.
#![tactic(auto)]

mod bytes;
mod copies;
mod key;
mod keys;
mod map;
mod shared;

pub use bytes::Bytes;
pub use key::Key;
pub use map::{AppendFault, OrdMap};
pub use shared::Shared;
