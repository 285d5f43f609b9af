//! Stacks: a `Vec` that contracts see as the list of its elements, the last one first.
#![tactic(auto)]

ghost use Rattle.std.specs.Prelude.{◌≡◌, ◌≤◌, ◌+◌, List, [], ◌∷◌, ◌++◌, length, take, drop, reverse, slice_get, MatchOption, IfOk, OnOk, OnErr};
ghost use Rattle.std.specs.Option.{option_copied};

use sqlite_items::{Items, at};
use std::alloc::{AllocError, Global};
use std::marker::Model;

/// A stack. Contracts see the list of its elements, the top first.
#[derive(Drop)]
pub struct Pile<T> {
    items: Vec<T>,
}

impl<T> Model for Pile<T> {
    ghost use Rattle.std.specs.Prelude.{List, reverse};
    ghost use Rattle.std.specs.Coded.{coded_list};

    ghost Value = { List T };

    ghost coded = { coded_list T.code };

    ghost view = { λ p. reverse p.items.items };
}

impl<T> Pile<T> {
    /// An empty stack.
    pub fn new(alloc: Global) -> Pile<T>
        ensures { result ≡ [] }
    {
        Pile {
            items: Vec::new(alloc),
        }
    }

    /// How many elements there are.
    #[tactic(auto, using(crate::proofs::Turned::same_length))]
    pub fn len(&self) -> usize
        ensures { result ≡ length self.now }
    {
        self.items.len()
    }

    /// The element at a place below the top one, which is at 0.
    #[tactic(auto, using(crate::proofs::Turned::element_turned, crate::proofs::Turned::none_past))]
    pub fn at(&self, place: usize) -> Option<&T>
        ensures { option_copied result ≡ slice_get self.now place }
    {
        let items = self.items.as_slice();
        let len = items.len();
        if place < len {
            at(items, len - 1 - place)
        } else {
            None
        }
    }

    /// The element on top, which is taken.
    #[tactic(auto, using(crate::proofs::Turned::more_turned))]
    pub fn pop(&mut self) -> Option<T>
        ensures { MatchOption result ((self.old ≡ []) × (self.new ≡ [])) (λ x. self.old ≡ x ∷ self.new) }
    {
        self.items.pop()
    }
}

impl<T: Drop> Pile<T> {
    /// Puts an element on top. Where there is no memory the stack is as it was.
    #[tactic(auto, using(crate::proofs::Turned::more_turned))]
    pub fn push(&mut self, item: T) -> Result<(), AllocError>
        ensures ok { OnOk result (self.new ≡ item ∷ self.old) }
        ensures err { OnErr result (self.new ≡ self.old) }
    {
        self.items.push(item)?;
        Ok(())
    }

    /// Takes so many elements off.
    pub fn discard(&mut self, gone: usize)
        requires { gone ≤ length self.old }
        ensures { self.new ≡ drop gone self.old }
    {
        let left = self.items.as_slice().len() - gone;
        self.items.truncate(left);
    }
}

impl<T: Copy + Drop> Pile<T> {
    /// A copy of so many elements from the top on, the lowest of them first.
    pub fn topmost(&self, alloc: Global, count: usize) -> Result<Items<T>, AllocError>
        requires { count ≤ length self.now }
        ensures { IfOk result (λ copy. copy ≡ reverse (take count self.now)) }
    {
        let items = self.items.as_slice();
        let from = items.len() - count;
        copy_from(alloc, items, from)
    }
}

/// A copy of the items from a place on.
#[tactic(auto, using(std::proofs::lemmas::List::take_rest))]
fn copy_from<T: Copy + Drop>(
    alloc: Global,
    items: &[T],
    from: usize,
) -> Result<Items<T>, AllocError>
    requires { from ≤ length items.now }
    ensures { IfOk result (λ copy. copy ≡ drop from items.now) }
{
    Items::from_slice(alloc, &items[from..])
}
