//! Tests of the libraries of whole numbers, tables, LEB128, types, systems of typing rules and operators.
#![tactic(auto)]

#[cfg(test)]
mod cases;
#[cfg(test)]
mod codes;
#[cfg(test)]
mod leb128;
#[cfg(test)]
mod systems;
#[cfg(test)]
mod types;
#[cfg(test)]
mod whole_numbers;
