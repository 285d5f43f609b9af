ghost use Rattle.std.specs.Prelude.{◌≡◌, IfSome, IfOk, IsTrue};
ghost use Rattle.hph_sys.specs.Least.{IsLeast};
ghost use Rattle.hph_sys.specs.Two.{two};
ghost use Rattle.hph_table.specs.Seats.{AreSeated, new_view};
ghost use Rattle.hph_machine_tests.specs.TwoSeats.{reader, payer, raiser, yielder, looker, finder};

use hph_core::Hold;
use hph_sys::examples::Two;
use hph_table::{Seat, Shared};
use hph_type::{Kind, Ty};
use std::alloc::{AllocError, Global};
use std::test::Fail;

// The seats of a table with two, in order of their numbers.
fn both_seats(shared: &Shared<Two>, mut seats: Vec<Seat<Two>>) -> Option<(Seat<Two>, Seat<Two>)>
    requires { AreSeated shared.now.0 2 seats.items }
    ensures first { IfSome result (λ both. (both.0.0 ≡ shared.now.0) × (both.0.1 ≡ new_view 2 0)) }
    ensures second { IfSome result (λ both. (both.1.0 ≡ shared.now.0) × (both.1.1 ≡ new_view 2 1)) }
{
    let second = seats.pop()?;
    let first = seats.pop()?;
    Some((first, second))
}

// Seat 0 takes scope 0, holds it and reads cell 0, and each call answers as its row says.
fn first_reads(shared: &Shared<Two>, seat: &mut Seat<Two>) -> bool
    requires seat { seat.old.0 ≡ shared.now.0 }
    requires view { seat.old.1 ≡ new_view 2 0 }
    ensures seat { seat.new.0 ≡ shared.now.0 }
    ensures view { IsTrue result → seat.new.1 ≡ reader }
{
    if !shared.take(seat, 0) {
        return false;
    }
    match shared.try_hold(seat, 0) {
        Hold::Got => shared.cell(seat, 0) == Ty::none(),
        Hold::Busy(_) => false,
    }
}

// Seat 1 takes scope 1, finds scope 0 held by seat 0, and puts scope 1 back.
fn second_yields(shared: &Shared<Two>, seat: &mut Seat<Two>) -> bool
    requires seat { seat.old.0 ≡ shared.now.0 }
    requires view { seat.old.1 ≡ new_view 2 1 }
    ensures seat { seat.new.0 ≡ shared.now.0 }
    ensures view { IsTrue result → seat.new.1 ≡ yielder }
{
    if !shared.take(seat, 1) {
        return false;
    }
    match shared.try_hold(seat, 0) {
        Hold::Got => false,
        Hold::Busy(holder) => {
            shared.put_back(seat, 1) && shared.pending(seat) == 2 && holder == 0
        }
    }
}

// Seat 0 owes a unit for a mark of scope 1, which waits already, and pays it.
fn first_pays(shared: &Shared<Two>, seat: &mut Seat<Two>) -> bool
    requires seat { seat.old.0 ≡ shared.now.0 }
    requires view { seat.old.1 ≡ reader }
    ensures seat { seat.new.0 ≡ shared.now.0 }
    ensures view { IsTrue result → seat.new.1 ≡ payer }
{
    shared.pending_add(seat);
    let owed = shared.pending(seat);
    if shared.mark(seat, 1) {
        return false;
    }
    shared.pending_drop(seat);
    owed == 3 && shared.pending(seat) == 2
}

// It raises cell 0, and is done.
fn first_raises(shared: &Shared<Two>, seat: &mut Seat<Two>) -> bool
    requires seat { seat.old.0 ≡ shared.now.0 }
    requires view { seat.old.1 ≡ payer }
    ensures seat { seat.new.0 ≡ shared.now.0 }
    ensures view { IsTrue result → seat.new.1 ≡ raiser }
{
    shared.raise(seat, 0, Ty::only(Kind::Int));
    shared.pending_drop(seat);
    shared.release(seat, 0);
    shared.pending(seat) == 1
}

// Seat 1 takes scope 1, holds both scopes and reads both cells.
fn second_reads(shared: &Shared<Two>, seat: &mut Seat<Two>) -> bool
    requires seat { seat.old.0 ≡ shared.now.0 }
    requires view { seat.old.1 ≡ yielder }
    ensures seat { seat.new.0 ≡ shared.now.0 }
    ensures view { IsTrue result → seat.new.1 ≡ looker }
{
    if !shared.take(seat, 1) {
        return false;
    }
    if shared.try_hold(seat, 0) != Hold::Got {
        return false;
    }
    if shared.try_hold(seat, 1) != Hold::Got {
        return false;
    }
    shared.cell(seat, 0) == Ty::only(Kind::Int) && shared.cell(seat, 1) == Ty::none()
}

// It raises cell 1, is done, and finds nothing pending.
fn second_raises(shared: &Shared<Two>, seat: &mut Seat<Two>) -> bool
    requires seat { seat.old.0 ≡ shared.now.0 }
    requires view { seat.old.1 ≡ looker }
    ensures seat { seat.new.0 ≡ shared.now.0 }
    ensures view { IsTrue result → seat.new.1 ≡ finder }
{
    shared.raise(seat, 1, Ty::only(Kind::Int));
    shared.pending_drop(seat);
    shared.release(seat, 1);
    shared.release(seat, 0);
    shared.pending(seat) == 0
}

// Ends the table, where both are done. Its cells are the least typing, since seat 1 found nothing pending.
fn ends(
    alloc: Global,
    shared: Shared<Two>,
    first: Seat<Two>,
    second: Seat<Two>,
) -> Result<Vec<Ty>, AllocError>
    requires workers { shared.1.workers ≡ 2 }
    requires first { (first.0 ≡ shared.0) × (first.1 ≡ raiser) }
    requires second { (second.0 ≡ shared.0) × (second.1 ≡ finder) }
    ensures { IfOk result (λ cells. IsLeast two cells.items) }
{
    let mut seats = Vec::new(alloc);
    seats.push(first)?;
    seats.push(second)?;
    let cells = shared.close(alloc, seats)?;
    Ok(cells)
}

#[test]
fn two_seats_find_int(rt: HostRuntime) -> Result<(), Fail> {
    let two = Two::new(rt.alloc())?;
    let (shared, seats) = Shared::new(rt.alloc(), &two, 2)?;
    let (mut first, mut second) = both_seats(&shared, seats).ok_or("two seats")?;
    assert!(rt; first_reads(&shared, &mut first));
    assert!(rt; second_yields(&shared, &mut second));
    assert!(rt; first_pays(&shared, &mut first));
    assert!(rt; first_raises(&shared, &mut first));
    assert!(rt; second_reads(&shared, &mut second));
    assert!(rt; second_raises(&shared, &mut second));
    let cells = ends(rt.alloc(), shared, first, second)?;
    let int = Ty::only(Kind::Int);
    assert!(rt; cells.as_slice() == [int, int].as_slice());
    Ok(())
}
