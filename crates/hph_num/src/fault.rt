use thiserror::Error;

/// Why an operator has no whole number as its answer (PHP manual, Arithmetic Operators; this project's own for what PHP gives as a float).
#[derive(Clone, Copy, Debug, PartialEq, Eq, Error)]
pub enum NumFault {
    /// The result is past 64 bits.
    #[error("the result is past 64 bits")]
    Overflow,
    /// The divisor is 0.
    #[error("the divisor is 0")]
    DivZero,
    /// The count of a shift is negative.
    #[error("the count of the shift is negative")]
    NegativeShift,
    /// The quotient has a remainder, or the exponent is negative.
    #[error("the result is no whole number")]
    NotWhole,
}
