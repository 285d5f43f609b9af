//! What the machine's rule is worth, for every system. The functions do nothing: each is there for its contract.
ghost use Rattle.std.specs.Prelude.{◌≡◌};
ghost use Rattle.hph_sys.specs.Shape.{Shape};
ghost use Rattle.hph_sys.specs.Lawful.{Lawful};
ghost use Rattle.hph_core.specs.State.{WorkerState};
ghost use Rattle.hph_core.specs.Rule.{KeepsInvariant};
ghost use Rattle.hph_core.specs.Laws.{StartsWell, EventKeeps, EveryRunKeeps, IsOfUse, FindingsStay};

/// The rule holds at the start of up to 64 workers.
pub fn the_rule_holds_at_the_start()
    ensures { (sys : Shape) → Lawful sys → StartsWell sys }
{}

/// Every enabled event keeps the rule, from any state that meets it.
pub fn every_event_keeps_the_rule()
    ensures { (sys : Shape) → Lawful sys → EventKeeps sys }
{}

/// The rule holds after every list of enabled events.
pub fn every_run_keeps_the_rule()
    ensures { (sys : Shape) → Lawful sys → EveryRunKeeps sys }
{}

/// Where the rule holds, cells are at or below the least typing, and are it once a worker has found nothing pending. No
/// scope has two holders, and the number pending is bounded.
pub fn the_rule_is_of_use()
    ensures { (sys : Shape) (st : WorkerState) → Lawful sys → KeepsInvariant sys st → IsOfUse sys st }
{}

/// Where nothing pending was once found, some seat has found it from then on, so that the cells stay the least typing.
pub fn findings_stay()
    ensures { (sys : Shape) → Lawful sys → FindingsStay sys }
{}
