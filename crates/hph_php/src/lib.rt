//! What PHP programs mean, in the profile of docs/LANGUAGE.md: values, conversions, operators, comparison, arrays,
//! built-in functions and the imports of a module; then the state of a run, what each form of expression and of statement
//! does with it, and the run of a program. docs/MEANING.md walks a reader through the second half.
//!
//! The definitions stand in specs/, one file per subject, each with the manual's page for its rules. The enums here are
//! the kinds of fatal errors, operators and built-in functions that those definitions and all code above speak of.
#![tactic(auto)]

mod builtin;
mod fatal;
mod laws;
mod operator;

pub use builtin::Builtin;
pub use fatal::Fatal;
pub use laws::{
    arguments_are_counted, builtins_are_of_the_table, codes_are_of_the_tables,
    decimals_are_int_keys, equality_goes_by_order, identity_is_reflexive, imports_are_of_the_table,
    order_turns_round, pairs_are_their_list, pieces_are_joined, values_are_found,
    whole_strings_are_framed_digits,
};
pub use operator::{BinOp, UnOp};
