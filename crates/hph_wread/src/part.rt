//! What a module is read of: parts that can be read by themselves, and vectors of them (Core Specification 1.0, 5.1.3).
ghost use Rattle.std.specs.Prelude.{◌≡◌, ℕ, List, length, IfOk, IfErr};
ghost use Rattle.std.specs.List.{AllByRecursion};
ghost use Rattle.hph_wasm.specs.Grammar.{Each, Vector};
ghost use Rattle.hph_wasm.specs.OneWay.{OneForm, OneStop};
ghost use Rattle.hph_wasm.specs.Unsupported.{Any, Among, InVector};
ghost use Rattle.hph_wasm.specs.declared.feature.Feature.{Feature};
ghost use Rattle.hph_wread.specs.Reading.{Took, Fails};
ghost use Rattle.hph_wread.specs.Counted.{Counted};

use crate::fault::Fault;
use crate::numbers::unsigned;
use hph_wasm::types_are_read_in_one_way;
use sqlite_items::Items;
use std::alloc::Global;

/// A part of a module that can be read by itself.
pub trait Part: Sized + Drop {
    /// What spells it.
    ghost grammar: { Self → List ℕ → Type 0 };

    /// What is asked of it beside that, for it is left out otherwise.
    ghost fits: { Self → Type 0 };

    /// Where something that is left out stops its reading.
    ghost stop: { ℕ → Feature → List ℕ → Type 0 };

    /// It can be read in one way, and stops in one place. Does nothing.
    fn read_in_one_way()
        ensures form { OneForm grammar }
        ensures stops { OneStop grammar fits stop };

    /// The part at the head of the bytes, and what stands behind it.
    fn read(alloc: Global, bytes: &[u8]) -> Result<(Self, &[u8]), Fault>
        ensures read { IfOk result (λ r. Took (grammar r.0) bytes.now r.1.now) }
        ensures fit { IfOk result (λ r. fits r.0) }
        ensures stopped { IfErr result (λ e. Fails (Any grammar) stop bytes.now e) };
}

/// A vector of parts (5.1.3). Takes memory for what it reads, not for what the count promises.
pub fn vector<T: Part>(alloc: Global, bytes: &[u8]) -> Result<(Items<T>, &[u8]), Fault>
    ensures read { IfOk result (λ r. Took (Vector T.grammar r.0) bytes.now r.1.now) }
    ensures fit { IfOk result (λ r. AllByRecursion T.fits r.0) }
    ensures stopped { IfErr result (λ e. Fails (Any (Vector T.grammar)) (InVector T.grammar T.fits T.stop) bytes.now e) }
{
    types_are_read_in_one_way();
    let (count, rest) = unsigned(bytes)?;
    let (items, rest) = counted::<T>(alloc, count, rest)?;
    Ok((items, rest))
}

/// So many parts, one behind the other.
fn counted<T: Part>(alloc: Global, count: u32, bytes: &[u8]) -> Result<(Items<T>, &[u8]), Fault>
    ensures read { IfOk result (λ r. Took (Each T.grammar r.0) bytes.now r.1.now) }
    ensures count { IfOk result (λ r. length r.0 ≡ count) }
    ensures fit { IfOk result (λ r. AllByRecursion T.fits r.0) }
    ensures stopped { IfErr result (λ e. Fails (Counted T.grammar count) (Among count T.grammar T.fits T.stop) bytes.now e) }
{
    T::read_in_one_way();
    let mut items = Items::new(alloc);
    let mut rest = bytes;
    for _ in 0..count {
        let (item, after) = T::read(alloc, rest)?;
        items.push(item)?;
        rest = after;
    }
    Ok((items, rest))
}

impl Part for u32 {
    ghost use Rattle.hph_wasm.specs.Leb128.{Unsigned};
    ghost use Rattle.hph_wasm.specs.Unsupported.{IsAnything, Nowhere};

    ghost grammar = { Unsigned 32 };

    ghost fits = { IsAnything };

    ghost stop = { Nowhere };

    fn read_in_one_way() {
        types_are_read_in_one_way();
    }

    fn read(_alloc: Global, bytes: &[u8]) -> Result<(u32, &[u8]), Fault> {
        unsigned(bytes)
    }
}
