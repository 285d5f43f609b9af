//! What stands around the instructions that run.
use crate::locals::FrameLocals;
use hph_wasm::Instr;

/// Which instructions of a block were entered.
#[derive(Clone, Copy, Debug, PartialEq, Eq)]
pub enum Side {
    Block,
    Loop,
    /// The first branch of an `if`.
    Then,
    /// The second one.
    Else,
}

/// A label: the block with what is behind it, whether a branch to it takes a value, and how many values lie outside.
#[derive(Clone, Copy)]
pub struct Entered<'m> {
    pub here: &'m [Instr],
    pub side: Side,
    pub gives: bool,
    pub saved: usize,
}

/// A function that waits for a call: the number of the function called, whether that gives a value, how many values and labels
/// the waiting one has, what it goes on with, and its locals.
#[derive(Drop)]
pub struct Caller<'m> {
    pub function: u32,
    pub gives: bool,
    pub saved: usize,
    pub entered: usize,
    pub rest: &'m [Instr],
    pub locals: FrameLocals<'m>,
}
