//! Entries of sections, and the content that they make (Core Specification 1.0, 5.1.3 and 5.5.2).
ghost use Rattle.std.specs.Prelude.{◌≡◌, ℕ, List, length, IfOk, IfErr, OnOk};
ghost use Rattle.std.specs.List.{AllByRecursion};
ghost use Rattle.hph_wasm.specs.Grammar.{Each, Vector, Sized};
ghost use Rattle.hph_wasm.specs.OneWay.{OneForm, OneStop};
ghost use Rattle.hph_wasm.specs.Unsupported.{Any, Among, InSized, InVector};
ghost use Rattle.hph_wasm.specs.declared.feature.Feature.{Feature};
ghost use Rattle.hph_wread.specs.Reading.{Took, Fails};
ghost use Rattle.hph_wread.specs.Counted.{Counted};

use crate::sized::{is_filled, moved, within};
use hph_wasm::types_are_read_in_one_way;
use hph_wread::{Fault, unsigned};
use sqlite_items::Items;
use std::alloc::Global;

/// A form of entries: what a section of a kind has any number of.
pub trait EntryForm {
    /// What an entry is.
    type Entry: Drop;

    /// What spells an entry.
    ghost grammar: { Self.Entry → List ℕ → Type 0 };

    /// What is asked of it beside that, for it is left out otherwise.
    ghost fits: { Self.Entry → Type 0 };

    /// Where something that is left out stops its reading.
    ghost stop: { ℕ → Feature → List ℕ → Type 0 };

    /// An entry can be read in one way, and stops in one place. Does nothing.
    fn read_in_one_way()
        ensures form { OneForm grammar }
        ensures stops { OneStop grammar fits stop };

    /// The entry at the head of the bytes, and what stands behind it.
    fn read_entry(alloc: Global, bytes: &[u8]) -> Result<(Self::Entry, &[u8]), Fault>
        ensures read { IfOk result (λ r. Took (grammar r.0) bytes.now r.1.now) }
        ensures fit { IfOk result (λ r. fits r.0) }
        ensures stopped { IfErr result (λ e. Fails (Any grammar) stop bytes.now e) };
}

/// So many entries, one behind the other. Takes memory for what it reads, not for what the count promises.
pub fn counted_entries<F: EntryForm>(
    alloc: Global,
    count: u32,
    bytes: &[u8],
) -> Result<(Items<F::Entry>, &[u8]), Fault>
    ensures read { IfOk result (λ r. Took (Each F.grammar r.0) bytes.now r.1.now) }
    ensures count { IfOk result (λ r. length r.0 ≡ count) }
    ensures fit { IfOk result (λ r. AllByRecursion F.fits r.0) }
    ensures stopped { IfErr result (λ e. Fails (Counted F.grammar count) (Among count F.grammar F.fits F.stop) bytes.now e) }
{
    F::read_in_one_way();
    let mut entries = Items::new(alloc);
    let mut rest = bytes;
    for _ in 0..count {
        let (entry, after) = F::read_entry(alloc, rest)?;
        entries.push(entry)?;
        rest = after;
    }
    Ok((entries, rest))
}

/// Entries behind their number.
pub fn entries<F: EntryForm>(alloc: Global, bytes: &[u8]) -> Result<(Items<F::Entry>, &[u8]), Fault>
    ensures read { IfOk result (λ r. Took (Vector F.grammar r.0) bytes.now r.1.now) }
    ensures fit { IfOk result (λ r. AllByRecursion F.fits r.0) }
    ensures stopped { IfErr result (λ e. Fails (Any (Vector F.grammar)) (InVector F.grammar F.fits F.stop) bytes.now e) }
{
    types_are_read_in_one_way();
    let (count, rest) = unsigned(bytes)?;
    let (entries, rest) = counted_entries::<F>(alloc, count, rest)?;
    Ok((entries, rest))
}

/// The content of a section behind its size: entries that take as many bytes. They are put in place of those in `into`, and
/// what stands behind the size is given. They are read within it, and it is compared with them where they end.
pub fn content<'a, F: EntryForm>(
    alloc: Global,
    bytes: &'a [u8],
    into: &mut Items<F::Entry>,
) -> Result<&'a [u8], Fault>
    ensures read { IfOk result (λ rest. Took (Sized (Vector F.grammar into.new)) bytes.now rest.now) }
    ensures fit { OnOk result (AllByRecursion F.fits into.new) }
    ensures stopped { IfErr result (λ e. Fails (Any (λ entries. Sized (Vector F.grammar entries)))
        (InSized (InVector F.grammar F.fits F.stop)) bytes.now e) }
{
    F::read_in_one_way();
    types_are_read_in_one_way();
    let (size, behind) = unsigned(bytes)?;
    let (inside, rest) = within(behind, size);
    match entries::<F>(alloc, inside) {
        Ok((entries, after)) => {
            if !is_filled(size, inside, after) {
                return Err(Fault::Malformed(after.len() + rest.len()));
            }
            *into = entries;
            Ok(rest)
        }
        Err(fault) => Err(moved(fault, inside, rest)),
    }
}
