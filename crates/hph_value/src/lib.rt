//! Values of programs in code, and their conversions (PHP manual, Types and Type Juggling).
//!
//! A value is seen as one of hph_php by `value_of`, and each call answers what the definition there gives for it. Strings and
//! arrays are shared, and an array is copied when it is written while it is shared. A value is let go of without calls by
//! its depth. Only calls that take an allocator, and clones, take memory.
#![tactic(auto)]

mod convert;
mod decimal;
mod numeric;
mod value;

pub use convert::{key_value, number_of, to_array, to_bool, to_int, to_key, to_text};
pub use numeric::{Numeric, leading_number, numeric_of};
pub use value::{Elements, Stop, Value, owned_map};
