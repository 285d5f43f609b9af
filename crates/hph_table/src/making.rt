//! How a table is made and ended.
ghost use Rattle.std.specs.Prelude.{◌≡◌, ◌≢◌, ◌<◌, ◌≤◌, ◌+◌, ◌-◌, ◌/◌, true, IfOk, ℕ, length, slice_index_or, [], vec_capacity};
ghost use Rattle.hph_sys.specs.Lawful.{Lawful};
ghost use Rattle.hph_core.specs.State.{fresh, spent, HasAll};
ghost use Rattle.hph_core.specs.Effects.{after_split, after_join};
ghost use Rattle.hph_core.specs.Conditions.{IsIdle};
ghost use Rattle.hph_table.specs.Seats.{IsEnd};
ghost use Rattle.hph_table.specs.Words.{IsFirst};
ghost use Rattle.hph_table.specs.Seats.{AreSeated, AreAll, Joined, Read, views_of};
ghost use Rattle.hph_table.specs.Words.{decode};
ghost use Rattle.std.specs.Mem.Slots.{slots_items, slots_len, IsFull};

use crate::{NoSlot, Plan, Seat, Shared};
use atomic_table::{Closed, Join, Split, Table};
use hph_core::View;
use hph_sys::System;
use hph_type::{Ty, of_code};
use std::alloc::{AllocError, Global};
use std::marker::PhantomData;
use std::snapshot::Snapshot;

/// How a seat's view is cut in two, and two views are put together.
pub struct Parts;

impl Split<View> for Parts {
    ghost left = { λ v. after_split v };

    ghost right = { λ v. fresh (v.top + 1) };
}

impl Join<View> for Parts {
    ghost both = { λ v w. after_join v w };

    ghost spent = { spent };
}

// The words of a set that has all scopes.
fn all_in(alloc: Global, scopes: u32) -> Result<Vec<u64>, AllocError>
    ensures { IfOk result (λ v. HasAll scopes v.items) }
{
    let mut work = Vec::from_elem(alloc, 0u64, (scopes as usize + 63) / 64)?;
    for s in 0..scopes {
        work[(s / 64) as usize] |= 1u64 << (s % 64);
    }
    Ok(work)
}

// The words of a table at its start: all scopes in the set, none held, all cells empty.
fn first_words(alloc: Global, scopes: u32, cells: u32) -> Result<Vec<u64>, AllocError>
    ensures { IfOk result (λ v. IsFirst scopes cells v.items) }
{
    let mut words = all_in(alloc, scopes)?;
    for i in 0..scopes as usize + cells as usize {
        words.push(0)?;
    }
    words.push(scopes as u64)?;
    Ok(words)
}

impl<S: System> Shared<S> {
    // A new seat, cut off from seat 0.
    fn split(&self, first: &mut Seat<S>, number: u32) -> Seat<S>
        requires table { first.old.0 ≡ self.now.0 }
        requires live { first.old.1.live ≡ true }
        requires first { first.old.1.number ≡ 0 }
        requires number { number ≡ first.old.1.top + 1 }
        requires room { number < self.now.1.workers }
        ensures first { (first.new.0 ≡ self.now.0) × (first.new.1 ≡ after_split first.old.1) }
        ensures seat { (result.0 ≡ self.now.0) × (result.1 ≡ fresh number) }
    {
        let seat = self.table.shared.split_seat::<Parts>(&mut first.seat);
        Seat {
            number,
            debt: false,
            seat,
            of: PhantomData,
        }
    }

    // The one has the findings of both.
    fn join(&self, one: &mut Seat<S>, other: Seat<S>)
        requires one { (one.old.0 ≡ self.now.0) × (one.old.1.live ≡ true) }
        requires other { (other.0 ≡ self.now.0) × IsIdle other.1 }
        ensures { (one.new.0 ≡ self.now.0) × (one.new.1 ≡ after_join one.old.1 other.1) }
    {
        let Seat {
            number: _,
            debt: _,
            seat,
            of: _,
        } = other;
        self.table.shared.join_seat::<Parts>(&mut one.seat, seat);
    }

    // All seats, in order of their numbers.
    fn seats(
        &self,
        alloc: Global,
        mut first: Seat<S>,
        workers: u32,
    ) -> Result<Vec<Seat<S>>, AllocError>
        requires first { (first.0 ≡ self.now.0) × (first.1 ≡ fresh 0) }
        requires workers { (0 < workers) × (workers ≡ self.now.1.workers) }
        ensures { IfOk result (λ v. AreSeated self.now.0 workers v.items) }
    {
        let mut others = Vec::new(alloc);
        for number in 1..workers {
            let next = self.split(&mut first, number);
            others.push(next)?;
        }
        others.insert(0, first)?;
        Ok(others)
    }

    /// A table with all scopes in the work set, and as many seats as workers, in order of their numbers. Err where there
    /// is no memory.
    pub fn new(
        alloc: Global,
        system: &S,
        workers: u32,
    ) -> Result<(Shared<S>, Vec<Seat<S>>), AllocError>
        requires workers { (0 < workers) × (workers ≤ 64) }
        ensures plan { IfOk result (λ r. (r.0.1.system.value ≡ system.now) × (r.0.1.workers ≡ workers)) }
        ensures seats { IfOk result (λ r. AreSeated r.0.0 workers r.1.items) }
    {
        let scopes = system.scopes();
        let cells = system.cells();
        let words = first_words(alloc, scopes, cells)?;
        let plan = Plan {
            system: Snapshot::of(system),
            workers,
        };
        let (table, seat) = Table::of_words(alloc, words.as_slice(), &plan)?;
        let shared = Shared {
            table,
            scopes,
            cells,
            words: (scopes as usize + 63) / 64,
        };
        let first = Seat {
            number: 0,
            debt: false,
            seat,
            of: PhantomData,
        };
        let seats = shared.seats(alloc, first, workers)?;
        Ok((shared, seats))
    }

    // The seat into which all are joined.
    fn gather(&self, mut seats: Vec<Seat<S>>) -> Seat<S>
        requires all { AreAll self.now.0 self.now.1.workers seats.items }
        requires some { 0 < self.now.1.workers }
        ensures { Joined self.now.0 seats.items [] result }
    {
        let Some(mut main) = seats.pop() else {
            unreachable!()
        };
        while let Some(seat) = seats.pop() {
            self.join(&mut main, seat);
        }
        main
    }

    /// Ends the table, and gives its cells: at most the least typing, and the least typing where one of the seats found
    /// nothing pending. Err where there is no memory.
    pub fn close(self, alloc: Global, seats: Vec<Seat<S>>) -> Result<Vec<Ty>, AllocError>
        requires all { AreAll self.0 self.1.workers seats.items }
        requires some { 0 < self.1.workers }
        ensures { IfOk result (λ v. IsEnd (S.shape self.1.system.value) (views_of seats.items) v.items) }
    {
        let out = Vec::with_capacity(alloc, self.cells as usize)?;
        let main = self.gather(seats);
        let Shared {
            table,
            scopes,
            cells,
            words,
        } = self;
        let Seat {
            number: _,
            debt: _,
            seat,
            of: _,
        } = main;
        let closed = table.close_with(seat);
        let out = read_cells(&closed, out, words + scopes as usize, cells);
        closed.free();
        Ok(out)
    }
}

// The type that a word tells, the empty one where it is no type's code.
pub fn type_of(word: u64) -> Ty
    ensures { result ≡ decode word }
{
    match of_code(word) {
        Some(ty) => ty,
        None => Ty::none(),
    }
}

// The types of cells, read from the words from `base` on, into a vector that has room for them.
fn read_cells(closed: &Closed<NoSlot, Global>, mut out: Vec<Ty>, base: usize, cells: u32) -> Vec<Ty>
    requires full { IsFull closed.now.words }
    requires room { base + cells ≤ slots_len closed.now.words }
    requires out { (out.items ≡ []) × (cells ≤ vec_capacity out) }
    ensures { Read (slots_items closed.now.words) base cells result.items }
{
    for c in 0..cells {
        out.push_reserved(type_of(closed.word(base + c as usize)));
    }
    out
}
