//! Two workers on the system `two`, event by event. The functions do nothing: each is there for its contract.
#![tactic(auto)]

ghost use Rattle.hph_core_tests.specs.TwoRun.{GoesThrough, Refuses};

/// Two workers, of which one finds the other in its way, give both cells the type int. Each event is enabled when its
/// turn comes, and answers as the table in specs/TwoRun.antt says.
pub fn two_workers_find_int()
    ensures { GoesThrough }
{}

/// Events that aren't enabled: a raise to a type that nothing asks, a drop of a hand whose pairs aren't met, a put back
/// of a hand whose scopes were all got, a raise before the cell's readers are marked.
pub fn wrong_events_are_not_enabled()
    ensures { Refuses }
{}
