//! How the code of expressions does what they mean, form by form, in proofs/; specs/Covers names the forms. No law of a function
//! states it yet.
#![tactic(auto)]
