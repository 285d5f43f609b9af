use hph_type::Ty;
use std::collections::LinkedList;

/// What a worker knows of a cell, with the number of the cell's owner.
#[derive(Drop)]
pub struct Known {
    /// The cell.
    pub cell: u32,
    /// The scope that owns it.
    pub owner: u32,
    /// Its type.
    pub ty: Ty,
}

/// An event of a worker with its answer.
#[derive(Drop)]
pub enum Finding {
    /// A word of the work set, and what it read.
    Peeked(u32, u64),
    /// A scope, and whether it was taken.
    Took(u32, bool),
    /// A scope, and whether it wasn't in the set before.
    Marked(u32, bool),
    /// A scope, and whether it wasn't in the set before.
    PutBack(u32, bool),
    /// A scope that the worker holds from then on.
    Got(u32),
    /// A scope, and the number of the seat that held it.
    Busy(u32, u32),
    /// A scope that isn't held any more.
    Released(u32),
    /// A cell, and the type that it had.
    Seen(u32, Ty),
    /// A cell, and the type that it was given.
    Raised(u32, Ty),
    /// One more pending.
    Added,
    /// One less pending, for the unit owed.
    Paid,
    /// One less pending, for the scope that was in the hand.
    Done(u32),
    /// The number pending.
    Pending(u64),
}

/// What a seat has and knows. No value of it is made where workers run: it is what contracts speak of.
#[derive(Drop)]
pub struct View {
    /// From the seat's making until it is joined into another.
    pub live: bool,
    /// The seat's number.
    pub number: u32,
    /// The scope that was taken.
    pub hand: Option<u32>,
    /// The scopes that are held.
    pub holds: LinkedList<u32>,
    /// The scopes that were marked since the last release.
    pub marks: LinkedList<u32>,
    /// Whether the number pending counts a unit for which no scope was marked yet.
    pub debt: bool,
    /// The cells that were read while their owner is held.
    pub known: LinkedList<Known>,
    /// All that was found, the oldest first.
    pub findings: LinkedList<Finding>,
    /// The greatest number of a seat so far, which only seat 0 uses.
    pub top: u32,
    /// The numbers of the seats that were joined into this one.
    pub joined: LinkedList<u32>,
}
