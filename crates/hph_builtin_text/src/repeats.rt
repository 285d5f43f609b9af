//! Repeats of a string.
ghost use Rattle.std.specs.Prelude.{◌≡◌, IfOk};
ghost use Rattle.hph_php.specs.StringFunctions as php;

use hph_array::Bytes;
use std::alloc::{AllocError, Global};

/// The bytes so many times (`str_repeat`).
#[tactic(auto, using(crate::proofs::Nothing::nothing_repeated, crate::proofs::Nothing::one_more))]
pub fn repeated(alloc: Global, bytes: &[u8], times: u64) -> Result<Bytes, AllocError>
    ensures { IfOk result (λ all. all ≡ php.str_repeat bytes.now times) }
{
    if bytes.is_empty() {
        return Bytes::from_slice(alloc, bytes);
    }
    let Some(size) = (bytes.len() as u64).checked_mul(times) else {
        return Err(AllocError);
    };
    let mut all = Vec::with_capacity(alloc, size as usize)?;
    'times: for _ in 0..times {
        all.extend_from_slice(bytes)?;
    }
    Bytes::new(alloc, all)
}
