//! What the built-in functions on strings give (PHP manual, String Functions), on slices of bytes. Each call answers exactly
//! what the definition in hph_php gives. Only calls that take an allocator take memory, and each takes time linear in the
//! bytes that it reads and writes.
#![tactic(auto)]

mod cases;
mod parts;
mod places;
mod repeats;

pub use cases::{byte_of, first_byte, lower_case, reversed, upper_case};
pub use parts::{part, trimmed};
pub use places::{first_place, offset_in, place_from, split_first};
pub use repeats::repeated;
