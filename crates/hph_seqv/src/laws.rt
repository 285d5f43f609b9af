//! Laws of code that runs as a meaning says: contracts of functions that do nothing.

ghost use Rattle.hph_seqv.specs.Laws.{RowsReply, CodeJoins, ChoicesChoose};

/// Where a module comes to a call of a row of the host, it goes on to what the row replies, whatever stands around the call.
#[tactic(auto, using(crate::proofs::Proved::rows_reply))]
pub fn rows_reply()
    ensures { RowsReply }
{}

/// Code behind code does what a meaning does that goes on with a value.
#[tactic(auto, using(crate::proofs::Proved::code_joins))]
pub fn code_joins()
    ensures { CodeJoins }
{}

/// A choice by a value does what one of two meanings does.
#[tactic(auto, using(crate::proofs::Proved::choices_choose))]
pub fn choices_choose()
    ensures { ChoicesChoose }
{}
