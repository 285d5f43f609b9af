/// The step that a worker has just taken.
#[derive(Clone, Copy, Debug, PartialEq, Eq)]
pub enum Point {
    /// It took the scope with this number.
    Took(u32),
    /// It holds all that the scope with this number looks at.
    Held(u32),
    /// At the scope with the first number it met the worker with the second, which holds what the scope needs.
    Met(u32, u32),
    /// It raised the cell with this number.
    Raised(u32),
    /// It is done with the scope with this number, and has released it.
    Finished(u32),
    /// It read the pending word, which has this value.
    Idle(u64),
}

/// A place that each worker passes after each step, so that a test can hold workers there and choose their order.
/// It promises nothing.
pub trait Gate {
    /// Returns once the worker with this number may go on.
    fn at(&self, worker: u32, point: Point);
}

/// A gate that is always open.
#[derive(Clone, Copy, Debug)]
pub struct NoGate;

impl Gate for NoGate {
    fn at(&self, _worker: u32, _point: Point) {}
}
