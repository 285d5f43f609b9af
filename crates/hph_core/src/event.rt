use hph_type::Ty;

/// An event: first the number of the worker, then what it acts on.
#[derive(Clone, Copy, Debug, Drop)]
pub enum Event {
    /// A look at a word of the work set.
    Peek(u32, u32),
    /// A try to take a scope out of the set.
    Take(u32, u32),
    /// A mark of a scope: it is to be worked on again.
    Mark(u32, u32),
    /// The hand goes back into the set.
    PutBack(u32, u32),
    /// A try to hold a scope.
    TryHold(u32, u32),
    /// A scope is let go.
    Release(u32, u32),
    /// A look at a cell.
    Read(u32, u32),
    /// A cell gets a greater type.
    Raise(u32, u32, Ty),
    /// One more is pending.
    Add(u32),
    /// One less is pending: the unit owed, or the hand.
    DropOne(u32),
    /// A look at the number pending.
    ReadPending(u32),
    /// The worker makes the seat of a number.
    Split(u32, u32),
    /// The seat of a number is joined into the worker's.
    Join(u32, u32),
}

/// What a try to hold a scope finds.
#[derive(Clone, Copy, Debug, PartialEq, Eq, Drop)]
pub enum Hold {
    /// The scope was free, and is held now.
    Got,
    /// The seat of this number holds it.
    Busy(u32),
}

/// What an event answers.
#[derive(Clone, Copy, Debug, PartialEq, Eq, Drop)]
pub enum Answer {
    /// Nothing.
    Nothing,
    /// Of a take, whether the scope was in the set; of a mark or a put back, whether it wasn't.
    Bit(bool),
    /// A word of the set, or the number pending.
    Word(u64),
    /// What a try to hold found.
    Held(Hold),
    /// The type of a cell.
    Known(Ty),
}
