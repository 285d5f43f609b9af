//! Raising cells until all that a scope asks is met.
ghost use Rattle.std.specs.Prelude.{◌≡◌, ◌<◌, OnOk, IsTrue, IsFalse, slice_set, ℕ};
ghost use Rattle.hph_type.specs.Order.{Leq, IsOf, join};
ghost use Rattle.hph_sys.specs.Typings.{In, at};
ghost use Rattle.hph_sys.specs.Shape.{asked};
ghost use Rattle.hph_sys.specs.Least.{IsMet};
ghost use Rattle.hph_turns.specs.Phases.{HasHand, IsAtWork, Slack};

use hph_src::{Gate, Point};
use hph_sys::System;
use hph_table::{Seat, Shared};
use hph_type::{Ty, join, leq};
use std::alloc::AllocError;

// Marks each scope, which looks at the scope `owner` that is held.
fn mark_all<S: System>(shared: &Shared<S>, seat: &mut Seat<S>, readers: &[u32], s: u32, owner: u32)
    requires table { seat.old.0 ≡ shared.now.0 }
    requires hand { HasHand seat.old.1 seat.old.1.number s }
    requires owner { In owner seat.old.1.holds }
    requires readers { (r : ℕ) → In r readers.now → (r < (S.shape shared.now.1.system.value).scopes) × In owner ((S.shape shared.now.1.system.value).look r) }
    ensures table { seat.new.0 ≡ shared.now.0 }
    ensures hand { HasHand seat.new.1 seat.old.1.number s }
    ensures same { (seat.new.1.holds ≡ seat.old.1.holds) × (seat.new.1.known ≡ seat.old.1.known) }
    ensures marked { (r : ℕ) → In r readers.now → In r seat.new.1.marks }
{
    for r in readers {
        shared.pending_add(seat);
        if !shared.mark(seat, *r) {
            shared.pending_drop(seat);
        }
    }
}

// Raises the cell by what the hand asks of it.
fn raise_one<S: System>(
    shared: &Shared<S>,
    seat: &mut Seat<S>,
    system: &S,
    s: u32,
    cell: u32,
    ty: Ty,
    known: &mut Vec<Ty>,
)
    requires table { seat.old.0 ≡ shared.now.0 }
    requires system { shared.now.1.system.value ≡ system.now }
    requires at_work { IsAtWork (S.shape system.now) seat.old.1 seat.old.1.number s known.old.items }
    requires cell { (cell < (S.shape system.now).cells) × In ((S.shape system.now).owner cell) ((S.shape system.now).look s) }
    requires asks { IsOf (S.shape system.now).classes ty × Leq (S.shape system.now).classes ty (asked (S.shape system.now) s known.old.items cell) }
    requires unmet { ¬ Leq (S.shape system.now).classes ty (at known.old.items cell) }
    ensures table { seat.new.0 ≡ shared.now.0 }
    ensures at_work { IsAtWork (S.shape system.now) seat.new.1 seat.old.1.number s known.new.items }
    ensures risen { known.new.items ≡ slice_set known.old.items cell (join (S.shape system.now).classes (at known.old.items cell) ty) }
{
    let owner = system.owner(cell);
    mark_all(shared, seat, system.readers(cell), s, owner);
    let risen = join(known[cell as usize], ty, system.tree());
    shared.raise(seat, cell, risen);
    known[cell as usize] = risen;
}

// Goes through the pairs that the hand asked at `known`, or at less. True where a cell was raised.
fn raise_all<S: System, G: Gate>(
    shared: &Shared<S>,
    seat: &mut Seat<S>,
    system: &S,
    gate: &G,
    s: u32,
    pairs: &[(u32, Ty)],
    known: &mut Vec<Ty>,
) -> bool
    requires table { seat.old.0 ≡ shared.now.0 }
    requires system { shared.now.1.system.value ≡ system.now }
    requires at_work { IsAtWork (S.shape system.now) seat.old.1 seat.old.1.number s known.old.items }
    requires pairs { pairs.now ≡ (S.shape system.now).contrib s known.old.items }
    ensures table { seat.new.0 ≡ shared.now.0 }
    ensures at_work { IsAtWork (S.shape system.now) seat.new.1 seat.old.1.number s known.new.items }
    ensures raised { IsTrue result → Slack (S.shape system.now) known.new.items < Slack (S.shape system.now) known.old.items }
    ensures met { IsFalse result → IsMet (S.shape system.now) known.new.items s }
{
    let mut raised = false;
    for (cell, ty) in pairs {
        if !leq(*ty, known[*cell as usize], system.tree()) {
            raise_one(shared, seat, system, s, *cell, *ty, known);
            gate.at(seat.number(), Point::Raised(*cell));
            raised = true;
        }
    }
    raised
}

/// Raises cells until all that the hand asks is met. Err where there is no memory.
pub fn settle<S: System, G: Gate>(
    shared: &Shared<S>,
    seat: &mut Seat<S>,
    system: &S,
    gate: &G,
    s: u32,
    known: &mut Vec<Ty>,
) -> Result<(), AllocError>
    requires table { seat.old.0 ≡ shared.now.0 }
    requires system { shared.now.1.system.value ≡ system.now }
    requires at_work { IsAtWork (S.shape system.now) seat.old.1 seat.old.1.number s known.old.items }
    ensures table { OnOk result (seat.new.0 ≡ shared.now.0) }
    ensures at_work { OnOk result (IsAtWork (S.shape system.now) seat.new.1 seat.old.1.number s known.new.items) }
    ensures met { OnOk result (IsMet (S.shape system.now) known.new.items s) }
{
    loop {
        let pairs = system.contrib(s, known.as_slice())?;
        if !raise_all(shared, seat, system, gate, s, pairs.as_slice(), known) {
            return Ok(());
        }
    }
}
