//! Reading cells.
ghost use Rattle.std.specs.Prelude.{◌≡◌, ◌↔◌, IsTrue, ℕ, true};
ghost use Rattle.hph_sys.specs.Typings.{In};
ghost use Rattle.hph_sys.specs.Shape.{IsTyping};
ghost use Rattle.hph_turns.specs.Phases.{IsReading, KnowsAll};

use hph_sys::System;
use hph_table::{Seat, Shared};
use hph_type::Ty;

fn has(xs: &[u32], x: u32) -> bool
    ensures { IsTrue result ↔ In x xs.now }
{
    for y in xs {
        if *y == x {
            return true;
        }
    }
    false
}

/// Reads the cells of all scopes that the hand looks at, which are held, into `known`.
pub fn read_cells<S: System>(
    shared: &Shared<S>,
    seat: &mut Seat<S>,
    system: &S,
    look: &[u32],
    known: &mut Vec<Ty>,
)
    requires table { seat.old.0 ≡ shared.now.0 }
    requires system { shared.now.1.system.value ≡ system.now }
    requires live { seat.old.1.live ≡ true }
    requires held { (d : ℕ) → In d look.now → In d seat.old.1.holds }
    requires known { IsTyping (S.shape system.now) known.old.items }
    ensures table { seat.new.0 ≡ shared.now.0 }
    ensures frame { IsReading seat.old.1 seat.new.1 }
    ensures known { KnowsAll (S.shape system.now) seat.new.1 look.now known.new.items }
{
    for c in 0..system.cells() {
        if has(look, system.owner(c)) {
            known[c as usize] = shared.cell(seat, c);
        }
    }
}
