ghost use Rattle.std.specs.Prelude.{◌≡◌};
ghost use Rattle.hph_num.specs.Arithmetic.{sum_of, difference_of, negation_of};

use crate::fault::NumFault;

/// `a + b`, or Overflow past 64 bits (PHP manual, Arithmetic Operators; the fault is this project's own).
#[tactic(auto, using(crate::proofs::RangeLemmas::kept))]
pub fn add(a: i64, b: i64) -> Result<i64, NumFault>
    ensures { result ≡ sum_of a b }
{
    a.checked_add(b).ok_or(NumFault::Overflow)
}

/// `a - b`, or Overflow past 64 bits (PHP manual, Arithmetic Operators; the fault is this project's own).
#[tactic(auto, using(crate::proofs::RangeLemmas::kept))]
pub fn sub(a: i64, b: i64) -> Result<i64, NumFault>
    ensures { result ≡ difference_of a b }
{
    a.checked_sub(b).ok_or(NumFault::Overflow)
}

/// `-a`, or Overflow, which the least number alone gives (PHP manual, Arithmetic Operators; the fault is this project's own).
#[tactic(auto, using(crate::proofs::RangeLemmas::kept))]
pub fn neg(a: i64) -> Result<i64, NumFault>
    ensures { result ≡ negation_of a }
{
    a.checked_neg().ok_or(NumFault::Overflow)
}
