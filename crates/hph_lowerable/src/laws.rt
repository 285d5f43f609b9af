//! The law of the condition under which a program is lowered: the contract of a function that does nothing.

ghost use Rattle.hph_lowerable.specs.Laws.{WellFormedIsLowerable};

/// A well-formed program may be lowered.
pub fn well_formed_is_lowerable()
    ensures { WellFormedIsLowerable }
{}
