//! A state of the machine as a value, and what each event makes of it.
ghost use Rattle.std.specs.Prelude.{◌≡◌, ◌≢◌, ◌↔◌, ◌<◌, ◌+◌, ◌/◌, ◌^◌, ℕ, IsTrue, IsSome, IfSome, IfOk, OnOk, OnErr, length, slice_index_or};
ghost use Rattle.hph_sys.specs.Typings.{at};
ghost use Rattle.hph_core.specs.State.{entry, holder, member, work_word};
ghost use Rattle.hph_core.specs.Effects as effects;
ghost use Rattle.hph_core.specs.Events.{Lives};
ghost use Rattle.hph_machine.specs.Values.{state_of};

use crate::entries;
use hph_core::{Finding, View};
use hph_type::Ty;
use std::alloc::{AllocError, Global};
use std::mem;

/// What the workers share, and what each seat has.
#[derive(Drop)]
pub struct State {
    /// The type of each cell.
    pub cells: Vec<Ty>,
    /// Of each scope 0 where it is free, else the number of the seat that holds it plus 1.
    pub holders: Vec<u32>,
    /// The work set, 64 scopes to a word.
    pub work: Vec<u64>,
    /// The number pending.
    pub pending: u64,
    /// What each seat has and knows.
    pub entries: Vec<View>,
}

impl State {
    /// What a live seat has.
    pub fn seat(&self, worker: u32) -> Option<&View>
        ensures live { IsSome result ↔ (Lives (state_of self.now) worker) }
        ensures entry { IfSome result (λ view. view.now ≡ entry (state_of self.now) worker) }
    {
        let view = self.entries.get(worker as usize)?;
        if view.live { Some(view) } else { None }
    }

    /// After a look at a word of the set, which is returned.
    pub fn peek(&mut self, worker: u32, word: u32) -> Result<u64, AllocError>
        requires seat { worker < length self.old.entries.items }
        requires word { word < length self.old.work.items }
        ensures found { IfOk result (λ found. found ≡ work_word (state_of self.old) word) }
        ensures ok { OnOk result (state_of self.new ≡ effects.peek (state_of self.old) worker word) }
        ensures err { OnErr result (state_of self.new ≡ state_of self.old) }
    {
        let found = self.work[word as usize];
        entries::note(
            &mut self.entries[worker as usize],
            Finding::Peeked(word, found),
        )?;
        Ok(found)
    }

    /// After a look at the number pending, which is returned.
    pub fn read_pending(&mut self, worker: u32) -> Result<u64, AllocError>
        requires { worker < length self.old.entries.items }
        ensures found { IfOk result (λ found. found ≡ (state_of self.old).pending) }
        ensures ok { OnOk result (state_of self.new ≡ effects.read_pending (state_of self.old) worker) }
        ensures err { OnErr result (state_of self.new ≡ state_of self.old) }
    {
        entries::note(
            &mut self.entries[worker as usize],
            Finding::Pending(self.pending),
        )?;
        Ok(self.pending)
    }

    /// After a look at a cell, whose type is returned.
    pub fn read(&mut self, worker: u32, cell: u32, owner: u32) -> Result<Ty, AllocError>
        requires seat { worker < length self.old.entries.items }
        requires cell { cell < length self.old.cells.items }
        ensures found { IfOk result (λ found. found ≡ at (state_of self.old).cells cell) }
        ensures ok { OnOk result (state_of self.new ≡ effects.read (state_of self.old) worker cell owner) }
        ensures err { OnErr result (state_of self.new ≡ state_of self.old) }
    {
        let found = self.cells[cell as usize];
        entries::read(&mut self.entries[worker as usize], cell, owner, found)?;
        Ok(found)
    }

    /// After a try to hold a scope, whose holder's word is returned.
    pub fn try_hold(&mut self, worker: u32, scope: u32) -> Result<u32, AllocError>
        requires seat { worker < length self.old.entries.items }
        requires scope { scope < length self.old.holders.items }
        requires number { (entry (state_of self.old) worker).number + 1 < 2 ^ 32 }
        ensures found { IfOk result (λ found. found ≡ holder (state_of self.old) scope) }
        ensures ok { OnOk result (state_of self.new ≡ effects.try_hold (state_of self.old) worker scope) }
        ensures err { OnErr result (state_of self.new ≡ state_of self.old) }
    {
        let found = self.holders[scope as usize];
        let number = self.entries[worker as usize].number;
        entries::try_hold(&mut self.entries[worker as usize], scope, found)?;
        if found == 0 {
            self.holders[scope as usize] = number + 1;
        }
        Ok(found)
    }

    /// After a scope is let go.
    pub fn release(&mut self, alloc: Global, worker: u32, scope: u32) -> Result<(), AllocError>
        requires seat { worker < length self.old.entries.items }
        requires scope { scope < length self.old.holders.items }
        ensures ok { OnOk result (state_of self.new ≡ effects.release (state_of self.old) worker scope) }
        ensures err { OnErr result (state_of self.new ≡ state_of self.old) }
    {
        entries::release(alloc, &mut self.entries[worker as usize], scope)?;
        self.holders[scope as usize] = 0;
        Ok(())
    }

    /// After a cell gets a type.
    pub fn raise(
        &mut self,
        alloc: Global,
        worker: u32,
        cell: u32,
        owner: u32,
        ty: Ty,
    ) -> Result<(), AllocError>
        requires seat { worker < length self.old.entries.items }
        requires cell { cell < length self.old.cells.items }
        ensures ok { OnOk result (state_of self.new ≡ effects.raise (state_of self.old) worker cell owner ty) }
        ensures err { OnErr result (state_of self.new ≡ state_of self.old) }
    {
        entries::raise(alloc, &mut self.entries[worker as usize], cell, owner, ty)?;
        self.cells[cell as usize] = ty;
        Ok(())
    }

    /// After one more is pending, for a unit that is owed.
    pub fn add(&mut self, worker: u32) -> Result<(), AllocError>
        requires seat { worker < length self.old.entries.items }
        requires room { self.old.pending + 1 < 2 ^ 64 }
        ensures ok { OnOk result (state_of self.new ≡ effects.add (state_of self.old) worker) }
        ensures err { OnErr result (state_of self.new ≡ state_of self.old) }
    {
        entries::add(&mut self.entries[worker as usize])?;
        self.pending += 1;
        Ok(())
    }

    /// After the unit owed is paid.
    pub fn pay(&mut self, worker: u32) -> Result<(), AllocError>
        requires seat { worker < length self.old.entries.items }
        requires some { 0 < self.old.pending }
        ensures ok { OnOk result (state_of self.new ≡ effects.pay (state_of self.old) worker) }
        ensures err { OnErr result (state_of self.new ≡ state_of self.old) }
    {
        entries::pay(&mut self.entries[worker as usize])?;
        self.pending -= 1;
        Ok(())
    }

    /// After the hand is dropped.
    pub fn finish(&mut self, worker: u32, hand: u32) -> Result<(), AllocError>
        requires seat { worker < length self.old.entries.items }
        requires some { 0 < self.old.pending }
        ensures ok { OnOk result (state_of self.new ≡ effects.finish (state_of self.old) worker hand) }
        ensures err { OnErr result (state_of self.new ≡ state_of self.old) }
    {
        entries::finish(&mut self.entries[worker as usize], hand)?;
        self.pending -= 1;
        Ok(())
    }

    // The bit of a scope in the set.
    fn bit(&self, scope: u32) -> u64
        requires { scope / 64 < length self.now.work.items }
        ensures { result ≡ member (state_of self.now) scope }
    {
        (self.work[(scope / 64) as usize] >> (scope % 64)) & 1
    }

    /// After a take of a scope. The bit that the set had of it is returned.
    pub fn take(&mut self, worker: u32, scope: u32) -> Result<u64, AllocError>
        requires seat { worker < length self.old.entries.items }
        requires scope { scope / 64 < length self.old.work.items }
        ensures found { IfOk result (λ bit. bit ≡ member (state_of self.old) scope) }
        ensures ok { OnOk result (state_of self.new ≡ effects.take (state_of self.old) worker scope) }
        ensures err { OnErr result (state_of self.new ≡ state_of self.old) }
    {
        let bit = self.bit(scope);
        entries::take(&mut self.entries[worker as usize], scope, bit)?;
        self.work[(scope / 64) as usize] &= !(1u64 << (scope % 64));
        Ok(bit)
    }

    /// After a mark of a scope. The bit that the set had of it is returned.
    pub fn mark(&mut self, worker: u32, scope: u32) -> Result<u64, AllocError>
        requires seat { worker < length self.old.entries.items }
        requires scope { scope / 64 < length self.old.work.items }
        ensures found { IfOk result (λ bit. bit ≡ member (state_of self.old) scope) }
        ensures ok { OnOk result (state_of self.new ≡ effects.mark (state_of self.old) worker scope) }
        ensures err { OnErr result (state_of self.new ≡ state_of self.old) }
    {
        let bit = self.bit(scope);
        entries::mark(&mut self.entries[worker as usize], scope, bit)?;
        self.work[(scope / 64) as usize] |= 1u64 << (scope % 64);
        Ok(bit)
    }

    /// After the hand is put back. The bit that the set had of it is returned.
    pub fn put_back(&mut self, worker: u32, scope: u32) -> Result<u64, AllocError>
        requires seat { worker < length self.old.entries.items }
        requires scope { scope / 64 < length self.old.work.items }
        ensures found { IfOk result (λ bit. bit ≡ member (state_of self.old) scope) }
        ensures ok { OnOk result (state_of self.new ≡ effects.put_back (state_of self.old) worker scope) }
        ensures err { OnErr result (state_of self.new ≡ state_of self.old) }
    {
        let bit = self.bit(scope);
        entries::put_back(&mut self.entries[worker as usize], scope, bit)?;
        self.work[(scope / 64) as usize] |= 1u64 << (scope % 64);
        Ok(bit)
    }

    /// Whether a seat owes a unit.
    pub fn owes(&self, worker: u32) -> bool
        ensures { result ≡ (entry (state_of self.now) worker).debt }
    {
        match self.entries.get(worker as usize) {
            Some(view) => view.debt,
            None => false,
        }
    }

    /// After the seat of a number is made.
    pub fn split(&mut self, alloc: Global, made: u32)
        requires { made < length self.old.entries.items }
        ensures { state_of self.new ≡ effects.split (state_of self.old) made }
    {
        self.entries[made as usize] = entries::fresh(alloc, made);
    }

    /// After a seat is joined into another.
    pub fn join(&mut self, alloc: Global, worker: u32, joined: u32) -> Result<(), AllocError>
        requires seat { worker < length self.old.entries.items }
        requires joined { joined < length self.old.entries.items }
        requires two { joined ≢ worker }
        ensures ok { OnOk result (state_of self.new ≡ effects.join_seats (state_of self.old) worker joined) }
        ensures err { OnErr result (state_of self.new ≡ state_of self.old) }
    {
        let mut gone = mem::replace(&mut self.entries[joined as usize], entries::spent(alloc));
        match entries::join(&mut self.entries[worker as usize], &mut gone) {
            Ok(()) => Ok(()),
            Err(fault) => {
                self.entries[joined as usize] = gone;
                Err(fault)
            }
        }
    }
}
