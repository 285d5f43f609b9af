//! Steps that go together, as a worker takes them at a table. Each edit of must-fail/ takes them in a wrong order, or
//! leaves one out, and is refused by the conditions of the table's calls.
#![tactic(auto)]

ghost use Rattle.std.specs.Prelude.{◌≡◌, ◌<◌, ◌-◌, ℕ, List, ◌∷◌, true, false, Some};
ghost use Rattle.hph_type.specs.Types.{PhpType};
ghost use Rattle.hph_sys.specs.Typings.{In};
ghost use Rattle.hph_core.specs.Effects.{after_add, after_mark, after_done, after_release};
ghost use Rattle.hph_core.specs.Rule.{one_if};
ghost use Rattle.hph_core.specs.Conditions.{MayMark};
ghost use Rattle.hph_core.specs.Events.{of_hand};
ghost use Rattle.hph_table.specs.Views.{RaisesSeen, FinishesSeen};

use hph_core::Hold;
use hph_sys::System;
use hph_table::{Seat, Shared};
use hph_type::Ty;

/// Owes a unit and marks a scope for it, true where the scope wasn't in the set.
pub fn add_and_mark<S: System>(shared: &Shared<S>, seat: &mut Seat<S>, scope: u32) -> bool
    requires seat { seat.old.0 ≡ shared.now.0 }
    requires live { seat.old.1.live ≡ true }
    requires hand { (s : ℕ) × (seat.old.1.hand ≡ Some s) }
    requires debt { seat.old.1.debt ≡ false }
    requires scope { scope < (S.shape shared.now.1.system.value).scopes }
    requires near { (d : ℕ) × In d ((S.shape shared.now.1.system.value).look scope) × In d seat.old.1.holds }
    ensures seat { seat.new.0 ≡ shared.now.0 }
    ensures view { seat.new.1 ≡ after_mark (after_add seat.old.1) scope (1 - one_if result) }
{
    shared.pending_add(seat);
    shared.mark(seat, scope)
}

/// Marks the reader of a cell that isn't marked yet, and gives the cell a greater type.
pub fn mark_and_raise<S: System>(
    shared: &Shared<S>,
    seat: &mut Seat<S>,
    reader: u32,
    cell: u32,
    ty: Ty,
)
    requires seat { seat.old.0 ≡ shared.now.0 }
    requires live { seat.old.1.live ≡ true }
    requires cell { cell < (S.shape shared.now.1.system.value).cells }
    requires mark { MayMark (S.shape shared.now.1.system.value) seat.old.1 reader }
    requires raise { (s : ℕ) × ((K : List PhpType) × RaisesSeen (S.shape shared.now.1.system.value)
        record seat.old.1 { marks = reader ∷ seat.old.1.marks } s cell ty K) }
    ensures { seat.new.0 ≡ shared.now.0 }
{
    shared.mark(seat, reader);
    shared.raise(seat, cell, ty);
}

/// Tries to hold a scope that the hand looks at, and puts the hand back where another seat holds it. True where the
/// scope is held.
pub fn hold_or_put_back<S: System>(
    shared: &Shared<S>,
    seat: &mut Seat<S>,
    hand: u32,
    scope: u32,
) -> bool
    requires seat { seat.old.0 ≡ shared.now.0 }
    requires live { seat.old.1.live ≡ true }
    requires hand { (hand < (S.shape shared.now.1.system.value).scopes) × (seat.old.1.hand ≡ Some hand) }
    requires debt { seat.old.1.debt ≡ false }
    requires scope { scope < (S.shape shared.now.1.system.value).scopes }
    requires look { In scope ((S.shape shared.now.1.system.value).look hand) }
    requires free { ¬ In scope seat.old.1.holds }
    ensures { seat.new.0 ≡ shared.now.0 }
{
    match shared.try_hold(seat, scope) {
        Hold::Got => true,
        Hold::Busy(_) => {
            shared.put_back(seat, hand);
            false
        }
    }
}

/// Drops the hand, all of whose pairs are met, and lets go of a scope that it looks at.
pub fn drop_and_release<S: System>(shared: &Shared<S>, seat: &mut Seat<S>, hand: u32, scope: u32)
    requires seat { seat.old.0 ≡ shared.now.0 }
    requires live { seat.old.1.live ≡ true }
    requires done { (K : List PhpType) × FinishesSeen (S.shape shared.now.1.system.value) seat.old.1 hand K }
    requires scope { scope < (S.shape shared.now.1.system.value).scopes }
    requires look { In scope ((S.shape shared.now.1.system.value).look hand) }
    ensures seat { seat.new.0 ≡ shared.now.0 }
    ensures view { seat.new.1 ≡ after_release (after_done seat.old.1 hand) scope }
{
    shared.pending_drop(seat);
    shared.release(seat, scope);
}
