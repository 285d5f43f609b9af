//! The table that the workers share. Its words, with what its seats know, are a state of the machine of `hph_core` that
//! meets the machine's rule, between any two steps of any threads.
//!
//! Each call on a seat is one atomic step on one word, and the machine's event of the same name: it needs what the
//! event needs, and its answer and what the seat knows afterwards are the event's. The conditions speak of the system
//! and of the seat's view alone. The calls take `&self`, no memory, and don't wait; every step is sequentially
//! consistent. `new` makes the seats, and `close` joins them and gives the cells.
#![tactic(auto)]

ghost use Rattle.std.specs.Prelude.{◌≡◌, ◌≢◌, ◌<◌, ◌≤◌, ◌+◌, ◌-◌, ◌/◌, ◌^◌, true, false, Some, None, [], List, ℕ, if◌then◌else◌, IsTrue};
ghost use Rattle.hph_type.specs.Types.{PhpType};
ghost use Rattle.hph_sys.specs.Typings.{In};
ghost use Rattle.hph_type.specs.Order.{IsOf};
ghost use Rattle.hph_core.specs.State.{fresh};
ghost use Rattle.hph_core.specs.Effects.{after_peek, after_take, after_mark, after_put_back, after_release, after_read, after_raise, after_add, after_pay, after_done, after_pending};
ghost use Rattle.hph_core.specs.Conditions.{MayPutBack, MayMark};
ghost use Rattle.hph_core.specs.Rule.{one_if};
ghost use Rattle.hph_table.specs.Words.{Stands};
ghost use Rattle.hph_table.specs.Tells.{BitsIn};
ghost use Rattle.hph_table.specs.Views.{RaisesSeen, FinishesSeen, MayDrop, after_drop};
ghost use Rattle.hph_core.specs.Events.{of_hand};
ghost use Rattle.hph_table.specs.Holds.{Tried};

mod making;

use atomic_table::{Play, Table, TableRule};
use hph_core::{Hold, View};
use hph_sys::System;
use hph_type::{Ty, code};
use making::type_of;
use std::alloc::Global;
use std::marker::{Brand, Model, PhantomData};
use std::snapshot::Snapshot;

/// What a slot of the table would hold: it has none.
#[derive(Drop)]
pub struct NoSlot;

/// The system that a table was made for, and the number of its workers.
#[derive(Drop)]
pub struct Plan<S> {
    /// The system.
    pub system: Snapshot<S>,
    /// The number of workers.
    pub workers: u32,
}

/// The rule of the table: its words and views are a state that meets the machine's rule.
pub struct Workers<S>(PhantomData<S>);

impl<S: System> TableRule<NoSlot, View, Plan<S>> for Workers<S> {
    ghost holds = { λ k s. Stands (S.shape k.system.value) k.workers s };

    ghost first = { λ k. fresh 0 };
}

// Each call picks what its step tells.
impl Play<NoSlot, View> for Brand {
    ghost then = { λ _ _ _ _. Unit {0} };
}

/// A table for a system and a number of workers.
#[derive(Drop)]
pub struct Shared<S: System> {
    table: Table<NoSlot, View, Plan<S>, Workers<S>, Global>,
    scopes: u32,
    cells: u32,
    words: usize,
}

impl<S: System> Model for Shared<S> {
    ghost use Rattle.std.specs.Prelude.{◌≡◌, ◌+◌, ◌/◌, ◌<◌, ◌^◌, ◌≤◌};
    ghost use Rattle.atomic_table.specs.Seated.{TableId};
    ghost use Rattle.hph_table.specs.declared.Plan.{Plan};

    ghost Value = { TableId × Plan S };

    ghost view = { λ s. (s.table.shared.table_id, s.table.shared.key) };

    ghost invariant = { λ s. (s.scopes ≡ (S.shape s.table.shared.key.system.value).scopes) × (s.cells ≡ (S.shape s.table.shared.key.system.value).cells) × (s.words ≡ (s.scopes + 63) / 64) × (s.table.shared.table_id.words ≡ s.words + (s.scopes + (s.cells + 1))) × (s.scopes < 2 ^ 32) × (s.cells < 2 ^ 32) × (s.table.shared.key.workers ≤ 64) × (s.table.shared.table_id.slots ≡ 0) };
}

/// A worker's place at a table. It has what the worker knows.
#[derive(Drop)]
pub struct Seat<S> {
    number: u32,
    debt: bool,
    seat: atomic_table::Seat<NoSlot, View>,
    of: PhantomData<Snapshot<S>>,
}

impl<S> Model for Seat<S> {
    ghost use Rattle.std.specs.Prelude.{◌≡◌, ◌<◌, []};
    ghost use Rattle.atomic_table.specs.Seated.{TableId};
    ghost use Rattle.hph_core.specs.declared.view.View.{View};

    ghost Value = { TableId × View };

    ghost view = { λ s. (s.seat.table_id, s.seat.me.0) };

    ghost invariant = { λ s. (s.number ≡ s.seat.me.0.number) × (s.number < 64) × (s.seat.me.1 ≡ []) × (s.debt ≡ s.seat.me.0.debt) };
}

impl<S> Seat<S> {
    /// The seat's number.
    pub fn number(&self) -> u32
        ensures { result ≡ self.now.1.number }
    {
        self.number
    }
}

impl<S: System> Shared<S> {
    /// A word of the work set. Its set bits are scopes.
    pub fn peek(&self, seat: &mut Seat<S>, word: u32) -> u64
        requires seat { seat.old.0 ≡ self.now.0 }
        requires live { seat.old.1.live ≡ true }
        requires may { word < ((S.shape self.now.1.system.value).scopes + 63) / 64 }
        ensures seat { seat.new.0 ≡ self.now.0 }
        ensures view { seat.new.1 ≡ after_peek seat.old.1 word result }
        ensures bits { BitsIn (S.shape self.now.1.system.value).scopes word result }
    {
        self.table
            .shared
            .load::<Brand>(&mut seat.seat, word as usize)
    }

    /// Takes a scope out of the set into the hand, true exactly where it was in the set. The seat has no hand and holds
    /// nothing.
    pub fn take(&self, seat: &mut Seat<S>, scope: u32) -> bool
        requires seat { seat.old.0 ≡ self.now.0 }
        requires live { seat.old.1.live ≡ true }
        requires scope { scope < (S.shape self.now.1.system.value).scopes }
        requires may { (seat.old.1.hand ≡ None) × (seat.old.1.holds ≡ []) }
        ensures seat { seat.new.0 ≡ self.now.0 }
        ensures view { seat.new.1 ≡ after_take seat.old.1 scope (one_if result) }
    {
        let bit = 1u64 << (scope % 64);
        let found = self
            .table
            .shared
            .fetch_and::<Brand>(&mut seat.seat, (scope / 64) as usize, !bit);
        (found >> (scope % 64)) & 1 == 1
    }

    /// Puts a scope into the set, true exactly where it wasn't there: this pays the unit that is owed. The seat owes one,
    /// and holds a scope that the marked one looks at.
    pub fn mark(&self, seat: &mut Seat<S>, scope: u32) -> bool
        requires seat { seat.old.0 ≡ self.now.0 }
        requires live { seat.old.1.live ≡ true }
        requires may { MayMark (S.shape self.now.1.system.value) seat.old.1 scope }
        ensures seat { seat.new.0 ≡ self.now.0 }
        ensures view { seat.new.1 ≡ after_mark seat.old.1 scope (1 - one_if result) }
    {
        let bit = 1u64 << (scope % 64);
        let found = self
            .table
            .shared
            .fetch_or::<Brand>(&mut seat.seat, (scope / 64) as usize, bit);
        let clear = (found >> (scope % 64)) & 1 == 0;
        seat.debt = !clear;
        clear
    }

    /// Puts the hand back into the set, true exactly where it wasn't there; where it was, a unit is owed. The last try to
    /// hold since the take found another seat at a scope that the hand looks at.
    pub fn put_back(&self, seat: &mut Seat<S>, scope: u32) -> bool
        requires seat { seat.old.0 ≡ self.now.0 }
        requires live { seat.old.1.live ≡ true }
        requires scope { scope < (S.shape self.now.1.system.value).scopes }
        requires may { MayPutBack (S.shape self.now.1.system.value) seat.old.1 scope }
        ensures seat { seat.new.0 ≡ self.now.0 }
        ensures view { seat.new.1 ≡ after_put_back seat.old.1 scope (1 - one_if result) }
    {
        let bit = 1u64 << (scope % 64);
        let found = self
            .table
            .shared
            .fetch_or::<Brand>(&mut seat.seat, (scope / 64) as usize, bit);
        let clear = (found >> (scope % 64)) & 1 == 0;
        seat.debt = !clear;
        clear
    }

    /// Tries once to hold a scope that the seat doesn't hold. Busy names the seat that the exchange found.
    pub fn try_hold(&self, seat: &mut Seat<S>, scope: u32) -> Hold
        requires seat { seat.old.0 ≡ self.now.0 }
        requires live { seat.old.1.live ≡ true }
        requires scope { scope < (S.shape self.now.1.system.value).scopes }
        requires may { ¬ In scope seat.old.1.holds }
        ensures seat { seat.new.0 ≡ self.now.0 }
        ensures view { Tried seat.old.1 scope result seat.new.1 }
    {
        let found = self.table.shared.compare_exchange::<Brand>(
            &mut seat.seat,
            self.words + scope as usize,
            0,
            seat.number as u64 + 1,
        );
        if found == 0 {
            Hold::Got
        } else {
            Hold::Busy((found - 1) as u32)
        }
    }

    /// Lets a scope go. The seat forgets its marks, and what it knows of the scope's cells.
    pub fn release(&self, seat: &mut Seat<S>, scope: u32)
        requires seat { seat.old.0 ≡ self.now.0 }
        requires live { seat.old.1.live ≡ true }
        requires scope { scope < (S.shape self.now.1.system.value).scopes }
        requires may { In scope seat.old.1.holds }
        ensures seat { seat.new.0 ≡ self.now.0 }
        ensures view { seat.new.1 ≡ after_release seat.old.1 scope }
    {
        self.table
            .shared
            .store::<Brand>(&mut seat.seat, self.words + scope as usize, 0);
    }

    /// The type of a cell whose owner the seat holds.
    pub fn cell(&self, seat: &mut Seat<S>, cell: u32) -> Ty
        requires seat { seat.old.0 ≡ self.now.0 }
        requires live { seat.old.1.live ≡ true }
        requires cell { cell < (S.shape self.now.1.system.value).cells }
        requires may { In ((S.shape self.now.1.system.value).owner cell) seat.old.1.holds }
        ensures seat { seat.new.0 ≡ self.now.0 }
        ensures view { seat.new.1 ≡ after_read seat.old.1 cell ((S.shape self.now.1.system.value).owner cell) result }
        ensures typed { IsOf (S.shape self.now.1.system.value).classes result }
    {
        let found = self.table.shared.load::<Brand>(
            &mut seat.seat,
            self.words + (self.scopes as usize + cell as usize),
        );
        type_of(found)
    }

    /// Gives a cell a greater type: the join of its type and of one below what the scope in hand asks. The seat holds all
    /// that this scope looks at and the cell's owner, knows the cells that it reads, and has marked the cell's readers.
    pub fn raise(&self, seat: &mut Seat<S>, cell: u32, ty: Ty)
        requires seat { seat.old.0 ≡ self.now.0 }
        requires live { seat.old.1.live ≡ true }
        requires cell { cell < (S.shape self.now.1.system.value).cells }
        requires may { (s : ℕ) × ((K : List Ty) × RaisesSeen (S.shape self.now.1.system.value) seat.old.1 s cell ty K) }
        ensures seat { seat.new.0 ≡ self.now.0 }
        ensures view { seat.new.1 ≡ after_raise seat.old.1 cell ((S.shape self.now.1.system.value).owner cell) ty }
    {
        self.table.shared.store::<Brand>(
            &mut seat.seat,
            self.words + (self.scopes as usize + cell as usize),
            code(ty),
        );
    }

    /// One more is pending. The seat has a hand, and owes nothing before and one unit afterwards.
    pub fn pending_add(&self, seat: &mut Seat<S>)
        requires seat { seat.old.0 ≡ self.now.0 }
        requires live { seat.old.1.live ≡ true }
        requires hand { (s : ℕ) × (seat.old.1.hand ≡ Some s) }
        requires may { seat.old.1.debt ≡ false }
        ensures seat { seat.new.0 ≡ self.now.0 }
        ensures view { seat.new.1 ≡ after_add seat.old.1 }
    {
        self.table.shared.fetch_add::<Brand>(
            &mut seat.seat,
            self.words + (self.scopes as usize + self.cells as usize),
            1,
        );
        seat.debt = true;
    }

    // Pays the unit that is owed.
    fn pay(&self, seat: &mut Seat<S>)
        requires seat { seat.old.0 ≡ self.now.0 }
        requires live { seat.old.1.live ≡ true }
        requires may { seat.old.1.debt ≡ true }
        ensures seat { seat.new.0 ≡ self.now.0 }
        ensures view { seat.new.1 ≡ after_pay seat.old.1 }
    {
        self.table.shared.fetch_sub::<Brand>(
            &mut seat.seat,
            self.words + (self.scopes as usize + self.cells as usize),
            1,
        );
        seat.debt = false;
    }

    // Drops the hand, all of whose pairs are met.
    fn finish(&self, seat: &mut Seat<S>)
        requires seat { seat.old.0 ≡ self.now.0 }
        requires live { seat.old.1.live ≡ true }
        requires may { (s : ℕ) × ((K : List Ty) × FinishesSeen (S.shape self.now.1.system.value) seat.old.1 s K) }
        ensures seat { seat.new.0 ≡ self.now.0 }
        ensures view { seat.new.1 ≡ after_done seat.old.1 (of_hand seat.old.1.hand) }
    {
        self.table.shared.fetch_sub::<Brand>(
            &mut seat.seat,
            self.words + (self.scopes as usize + self.cells as usize),
            1,
        );
    }

    /// One less is pending: the unit that is owed, or the hand, all of whose pairs are met by the cells that the seat
    /// knows.
    pub fn pending_drop(&self, seat: &mut Seat<S>)
        requires seat { seat.old.0 ≡ self.now.0 }
        requires live { seat.old.1.live ≡ true }
        requires may { MayDrop (S.shape self.now.1.system.value) seat.old.1 }
        ensures seat { seat.new.0 ≡ self.now.0 }
        ensures view { seat.new.1 ≡ after_drop seat.old.1 }
    {
        if seat.debt {
            self.pay(seat);
        } else {
            self.finish(seat);
        }
    }

    /// The number pending.
    pub fn pending(&self, seat: &mut Seat<S>) -> u64
        requires seat { seat.old.0 ≡ self.now.0 }
        requires live { seat.old.1.live ≡ true }
        ensures seat { seat.new.0 ≡ self.now.0 }
        ensures view { seat.new.1 ≡ after_pending seat.old.1 result }
    {
        self.table.shared.load::<Brand>(
            &mut seat.seat,
            self.words + (self.scopes as usize + self.cells as usize),
        )
    }
}
