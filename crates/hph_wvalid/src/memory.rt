//! Accesses to the memory (Core Specification 1.0, 3.3.4).
ghost use Rattle.std.specs.Prelude.{◌≡◌, ◌<◌, ◌^◌, IfOk, nat_le};
ghost use Rattle.hph_wasm.specs.Memory.{byte_width, load_type, load_bytes, store_type, store_bytes};
ghost use Rattle.hph_wvalid.specs.Checking.{From, access, access_signature, obeyed};

use crate::operands::apply;
use crate::spaces::Spaces;
use crate::stack::Stack;
use hph_wasm::{Instr, MemArg, NarrowLoad, NarrowStore, ValType};
use std::alloc::AllocError;

/// How many bytes a value of the type has.
fn value_bytes(ty: ValType) -> u32
    ensures same { result ≡ byte_width ty }
    ensures small { result < 16 }
{
    match ty {
        ValType::I32 => 4,
        ValType::I64 => 8,
    }
}

/// The type of what is loaded.
fn loaded_type(load: NarrowLoad) -> ValType
    ensures { result ≡ load_type load }
{
    match load {
        NarrowLoad::I32From8(_) | NarrowLoad::I32From16(_) => ValType::I32,
        NarrowLoad::I64From8(_) | NarrowLoad::I64From16(_) | NarrowLoad::I64From32(_) => {
            ValType::I64
        }
    }
}

/// How many bytes are loaded.
fn loaded_bytes(load: NarrowLoad) -> u32
    ensures same { result ≡ load_bytes load }
    ensures small { result < 16 }
{
    match load {
        NarrowLoad::I32From8(_) | NarrowLoad::I64From8(_) => 1,
        NarrowLoad::I32From16(_) | NarrowLoad::I64From16(_) => 2,
        NarrowLoad::I64From32(_) => 4,
    }
}

/// The type of what is stored.
fn stored_type(store: NarrowStore) -> ValType
    ensures { result ≡ store_type store }
{
    match store {
        NarrowStore::I32To8 | NarrowStore::I32To16 => ValType::I32,
        NarrowStore::I64To8 | NarrowStore::I64To16 | NarrowStore::I64To32 => ValType::I64,
    }
}

/// How many bytes are stored.
fn stored_bytes(store: NarrowStore) -> u32
    ensures same { result ≡ store_bytes store }
    ensures small { result < 16 }
{
    match store {
        NarrowStore::I32To8 | NarrowStore::I64To8 => 1,
        NarrowStore::I32To16 | NarrowStore::I64To16 => 2,
        NarrowStore::I64To32 => 4,
    }
}

/// Whether the alignment with an exponent is at most so many bytes.
#[tactic(auto, using(crate::proofs::Labels::big_power))]
fn is_aligned(exponent: u32, bytes: u32) -> bool
    requires small { bytes < 16 }
    ensures { result ≡ nat_le (2 ^ exponent) bytes }
{
    match exponent {
        0 => 1 <= bytes,
        1 => 2 <= bytes,
        2 => 4 <= bytes,
        3 => 8 <= bytes,
        _ => false,
    }
}

/// An access to so many bytes of the memory, which takes and gives these types.
fn access_to(
    spaces: &Spaces,
    bytes: u32,
    arg: MemArg,
    takes: &[ValType],
    gives: &[ValType],
    stack: Stack,
) -> Result<Option<Stack>, AllocError>
    requires small { bytes < 16 }
    ensures { IfOk result (λ s. s ≡ obeyed (access spaces.now.memories bytes arg (From takes.now gives.now)) stack) }
{
    if 0 < spaces.memories.len() && is_aligned(arg.align, bytes) {
        apply(takes, gives, stack)
    } else {
        Ok(None)
    }
}

/// The stack behind an access to the memory; none at a fault, and for other instructions.
pub fn check_access(
    spaces: &Spaces,
    instr: &Instr,
    stack: Stack,
) -> Result<Option<Stack>, AllocError>
    ensures { IfOk result (λ s. s ≡ obeyed (access_signature spaces.now.memories instr.now) stack) }
{
    match instr {
        Instr::Load(ty, arg) => {
            access_to(
                spaces,
                value_bytes(*ty),
                *arg,
                &[ValType::I32],
                &[*ty],
                stack,
            )
        }
        Instr::LoadNarrow(load, arg) => {
            let (ty, bytes) = (loaded_type(*load), loaded_bytes(*load));
            access_to(spaces, bytes, *arg, &[ValType::I32], &[ty], stack)
        }
        Instr::Store(ty, arg) => {
            access_to(
                spaces,
                value_bytes(*ty),
                *arg,
                &[*ty, ValType::I32],
                &[],
                stack,
            )
        }
        Instr::StoreNarrow(store, arg) => {
            let (ty, bytes) = (stored_type(*store), stored_bytes(*store));
            access_to(spaces, bytes, *arg, &[ty, ValType::I32], &[], stack)
        }
        _ => Ok(None),
    }
}
