//! What a reduction leads to.

/// What is next.
#[derive(Clone, Copy, Debug, PartialEq, Eq)]
pub enum Next {
    /// The machine goes on.
    Goes,
    /// A function is called, by one more reduction.
    Calls(u32),
    /// A branch to the label is taken, by one more reduction.
    Branches(u32),
    /// An instruction has trapped, before which the machine stands.
    Traps,
    /// The outermost function has returned.
    Ends,
    /// There was no memory to go on.
    NoMemory,
}
