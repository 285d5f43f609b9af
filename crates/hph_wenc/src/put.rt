//! What a module is written of: things with bytes of their own, and vectors of them (Core Specification 1.0, 5.1.3).
ghost use Rattle.std.specs.Prelude.{◌≡◌, ◌<◌, ◌^◌, ◌++◌, ℕ, List, length, flat_map, OnOk};
ghost use Rattle.std.specs.List.{AllByRecursion};
ghost use Rattle.hph_wasm.specs.Leb128.{u32_bytes};
ghost use Rattle.hph_wasm.specs.Spelling.{counted_bytes, vector_bytes};
ghost use Rattle.hph_wenc.specs.Fits.{IndicesFit};

use hph_leb::put_u32;
use sqlite_items::Items;
use std::alloc::AllocError;

/// A part of a module that can be written by itself.
pub trait Put {
    /// Its bytes.
    ghost spelling: { Self → List ℕ };

    /// What the format asks of its numbers and names. Its type keeps it, so `put` ensures it.
    ghost fits: { Self → Type 0 };

    /// Adds its bytes.
    fn put(&self, out: &mut Vec<u8>) -> Result<(), AllocError>
        requires { length (spelling self.now) < 2 ^ 32 }
        ensures put { OnOk result (out.new.items ≡ out.old.items ++ spelling self.now) }
        ensures fit { OnOk result (fits self.now) };
}

impl Put for u32 {
    ghost spelling = { u32_bytes };

    ghost fits = { λ n. n < 2 ^ 32 };

    fn put(&self, out: &mut Vec<u8>) -> Result<(), AllocError> {
        put_u32(out, *self)
    }
}

impl Put for Items<u8> {
    ghost spelling = { counted_bytes };

    ghost fits = { λ _. Unit {0} };

    fn put(&self, out: &mut Vec<u8>) -> Result<(), AllocError> {
        put_bytes(out, self.as_slice())
    }
}

/// Adds a vector of bytes: how many, and the bytes.
pub fn put_bytes(out: &mut Vec<u8>, bytes: &[u8]) -> Result<(), AllocError>
    requires { length bytes.now < 2 ^ 32 }
    ensures { OnOk result (out.new.items ≡ out.old.items ++ counted_bytes bytes.now) }
{
    put_u32(out, bytes.len() as u32)?;
    out.extend_from_slice(bytes)
}

/// Adds a vector of indices (5.5.1).
pub fn put_indices(out: &mut Vec<u8>, indices: &[u32]) -> Result<(), AllocError>
    requires { length (vector_bytes u32_bytes indices.now) < 2 ^ 32 }
    ensures put { OnOk result
        (out.new.items ≡ out.old.items ++ vector_bytes u32_bytes indices.now) }
    ensures fit { OnOk result (IndicesFit indices.now) }
{
    put_vector(out, indices)
}

/// Adds a vector: how many things, and each of them.
pub fn put_vector<T: Put>(out: &mut Vec<u8>, items: &[T]) -> Result<(), AllocError>
    requires few { length items.now < 2 ^ 32 }
    requires short { length (flat_map T.spelling items.now) < 2 ^ 32 }
    ensures put { OnOk result (out.new.items ≡ out.old.items ++ vector_bytes T.spelling items.now) }
    ensures fit { OnOk result (AllByRecursion T.fits items.now) }
{
    put_u32(out, items.len() as u32)?;
    for item in items {
        item.put(out)?;
    }
    Ok(())
}
