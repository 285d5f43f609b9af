//! Holding all that a scope looks at, and releasing it.
ghost use Rattle.std.specs.Prelude.{◌≡◌, ◌≢◌, ◌<◌, MatchOption, ℕ, [], Some, None, true};
ghost use Rattle.hph_sys.specs.Typings.{In};
ghost use Rattle.hph_core.specs.Conditions.{last_met};
ghost use Rattle.hph_turns.specs.Phases.{HoldsJust, Ascends};

use hph_core::Hold;
use hph_sys::System;
use hph_table::{Seat, Shared};

/// Releases the scopes, which are all that the seat holds.
pub fn release_all<S: System>(shared: &Shared<S>, seat: &mut Seat<S>, held: &[u32])
    requires table { seat.old.0 ≡ shared.now.0 }
    requires live { seat.old.1.live ≡ true }
    requires scopes { (d : ℕ) → In d held.now → d < (S.shape shared.now.1.system.value).scopes }
    requires ascends { Ascends held.now }
    requires just { HoldsJust seat.old.1 held.now }
    ensures table { seat.new.0 ≡ shared.now.0 }
    ensures none { seat.new.1.holds ≡ [] }
    ensures rest { (seat.new.1.live ≡ seat.old.1.live) × (seat.new.1.number ≡ seat.old.1.number) × (seat.new.1.hand ≡ seat.old.1.hand) × (seat.new.1.debt ≡ seat.old.1.debt) }
    ensures met { last_met None seat.new.1.findings ≡ last_met None seat.old.1.findings }
{
    for d in held {
        shared.release(seat, *d);
    }
}

/// Tries to hold all scopes. Where one is busy, nothing is held at the end, and the answer names it and its holder.
pub fn hold_all<S: System>(
    shared: &Shared<S>,
    seat: &mut Seat<S>,
    look: &[u32],
) -> Option<(u32, u32)>
    requires table { seat.old.0 ≡ shared.now.0 }
    requires live { seat.old.1.live ≡ true }
    requires scopes { (d : ℕ) → In d look.now → d < (S.shape shared.now.1.system.value).scopes }
    requires ascends { Ascends look.now }
    requires none { seat.old.1.holds ≡ [] }
    ensures table { seat.new.0 ≡ shared.now.0 }
    ensures rest { (seat.new.1.live ≡ seat.old.1.live) × (seat.new.1.number ≡ seat.old.1.number) × (seat.new.1.hand ≡ seat.old.1.hand) × (seat.new.1.debt ≡ seat.old.1.debt) }
    ensures all { MatchOption result (HoldsJust seat.new.1 look.now) (λ b. (seat.new.1.holds ≡ []) × In b.0 look.now × (last_met None seat.new.1.findings ≡ Some (b.0, b.1)) × (b.1 ≢ seat.old.1.number)) }
{
    for (i, d) in look.iter().enumerate() {
        match shared.try_hold(seat, *d) {
            Hold::Got => {}
            Hold::Busy(h) => {
                release_all(shared, seat, &look[..i]);
                return Some((*d, h));
            }
        }
    }
    None
}
