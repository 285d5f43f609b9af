//! The law on programs that are read: the contract of a function that does nothing.

ghost use Rattle.hph_wellformed.specs.Laws.{SourcesAreWellFormed};

/// A program of a source tree is well-formed, where its names agree.
pub fn sources_are_well_formed()
    ensures { SourcesAreWellFormed }
{}
